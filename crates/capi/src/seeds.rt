// What is made of a seed, for hosts that sign: its public key, and signatures.
ghost use Rattle.std.specs.Prelude.{◌≡◌};
ghost use Rattle.ed25519_sign.specs.Signing.{public_of, signature_of, signature_parts};

// The public key of a seed.
#[unsafe(no_mangle)]
pub extern "C" fn tb_public_key(seed: &[u8; 32], out: &mut [u8; 32])
    ensures { out.new ≡ public_of seed.now }
{
    let a = ed25519_sign::public_key(*seed);
    *out = a;
}

// The signature of the text.
#[unsafe(no_mangle)]
pub extern "C" fn tb_sign(seed: &[u8; 32], text: &[u8], out: &mut [u8; 64])
    ensures { out.new ≡ signature_of seed.now text.now }
{
    let s = ed25519_sign::sign(*seed, text);
    *out = s;
}

// The same of the text that is context and then value.
#[unsafe(no_mangle)]
pub extern "C" fn tb_sign_parts(seed: &[u8; 32], context: &[u8], value: &[u8], out: &mut [u8; 64])
    ensures { out.new
        ≡ signature_parts seed.now context.now value.now }
{
    let s = ed25519_sign::sign_parts(*seed, context, value);
    *out = s;
}
