// Ed25519 verification for hosts.
ghost use Rattle.std.specs.Prelude.{◌≡◌};
ghost use Rattle.ed25519.specs.Verification.{verifies, verifies_parts};

// Whether the signature of the text verifies under the key.
#[unsafe(no_mangle)]
pub extern "C" fn tb_verify(key: &[u8], text: &[u8], signature: &[u8]) -> bool
    ensures { result ≡ verifies key.now text.now signature.now }
{
    ed25519::verify(key, text, signature)
}

// The same of the text that is context and then value.
#[unsafe(no_mangle)]
pub extern "C" fn tb_verify_parts(
    key: &[u8],
    context: &[u8],
    value: &[u8],
    signature: &[u8],
) -> bool
    ensures { result ≡ verifies_parts key.now context.now value.now
        signature.now }
{
    ed25519::verify_parts(key, context, value, signature)
}
