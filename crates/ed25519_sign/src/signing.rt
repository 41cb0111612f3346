// The public key and the signature (RFC 8032, 5.1.5 and 5.1.6; secret_to_public and sign of section 6).
ghost use Rattle.std.specs.Prelude.{◌≡◌, ◌++◌, ◌+◌, ◌^◌, ◌<◌, length};
ghost use Rattle.ed25519_sign.specs.Signing.{public_of, signature_of, signature_parts};

use super::expanding::secret_expand;
use super::halves::{first_half, second_half};
use super::multiplying::encoded_times;
use ed25519::MOST_TEXT;
use octets::put;

// The public key of a seed.
pub fn public_key(seed: [u8; 32]) -> [u8; 32]
    ensures { result ≡ public_of seed }
{
    let e = secret_expand(seed);
    encoded_times(&e.scalar, e.zero)
}

// The two halves, one after the other (step 6).
fn joined(r: [u8; 32], s: [u8; 32]) -> [u8; 64]
    ensures { result ≡ r ++ s }
{
    let mut out = [0u8; 64];
    put(&mut out, 0, &r);
    put(&mut out, 32, &s);
    out
}

// The signature of a text that is not too long, with the public key of the seed.
fn signed(seed: [u8; 32], key: [u8; 32], context: &[u8], value: &[u8]) -> [u8; 64]
    requires { (key ≡ public_of seed) × (64 + (length context.now + length value.now) < 2 ^ 64) }
    ensures { result ≡ signature_of seed (context.now ++ value.now) }
{
    let e = secret_expand(seed);
    let f = first_half(&e.prefix, e.zero, context, value);
    let s = second_half(f, &e.scalar, &key, context, value);
    joined(f.string, s)
}

// The signature of the text that is context and then value, by one who has the public key at hand: one multiplication
// less. It must be that of the seed, and so C is not offered this. Two signatures of one text under two keys have the
// same r and show s, the secret scalar.
// Zeros and no None where the text is too long: C's tb_sign_parts writes 64 bytes whatever the text.
pub fn sign_parts_with(seed: [u8; 32], key: [u8; 32], context: &[u8], value: &[u8]) -> [u8; 64]
    requires { key ≡ public_of seed }
    ensures { result ≡ signature_parts seed context.now value.now }
{
    if value.len() > MOST_TEXT - context.len() {
        return [0u8; 64];
    }
    signed(seed, key, context, value)
}

// The same of the seed alone.
pub fn sign_parts(seed: [u8; 32], context: &[u8], value: &[u8]) -> [u8; 64]
    ensures { result ≡ signature_parts seed context.now value.now }
{
    sign_parts_with(seed, public_key(seed), context, value)
}

// The signature of the text.
pub fn sign(seed: [u8; 32], text: &[u8]) -> [u8; 64]
    ensures { result ≡ signature_of seed text.now }
{
    sign_parts(seed, &[], text)
}
