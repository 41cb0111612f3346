// The two halves of a signature (RFC 8032, 5.1.6, steps 2 to 5).
ghost use Rattle.std.specs.Prelude.{◌≡◌, ◌++◌, ◌+◌, ◌*◌, ◌%◌, ◌^◌, ◌<◌, length};
ghost use Rattle.laws.specs.Numbers.{le_bytes};
ghost use Rattle.digits.specs.Digits.{value};
ghost use Rattle.ed25519_field.specs.Limbs.{radix};
ghost use Rattle.ed25519_field.specs.Residue.{Low};
ghost use Rattle.ed25519_scalar.specs.Order.{L};
ghost use Rattle.ed25519.specs.Verification.{k_of};
ghost use Rattle.ed25519_sign.specs.Steps.{Hashed, Begun};

use super::First;
use super::multiplying::encoded_times;
use ed25519::digest;
use ed25519_field::{bytes_of, limbs_of};
use ed25519_scalar::{Scalar, modulo, plus, times};

// r: the digest of the prefix and the two parts of the text, modulo L (step 2).
fn number_r(prefix: &[u8; 32], context: &[u8], text: &[u8]) -> Scalar
    requires { 64 + (length context.now + length text.now) < 2 ^ 64 }
    ensures { Hashed (prefix.now ++ (context.now ++ text.now)) result }
{
    let d = digest(prefix, &[], context, text);
    modulo(&d)
}

// r and R (steps 2 and 3).
pub fn first_half(prefix: &[u8; 32], zero: u64, context: &[u8], text: &[u8]) -> First
    requires { (zero ≡ 0)
        × (64 + (length context.now + length text.now) < 2 ^ 64) }
    ensures { Begun (prefix.now ++ (context.now ++ text.now)) result }
{
    let r = number_r(prefix, context, text);
    let s = bytes_of(r);
    First {
        number: r,
        string: encoded_times(&s, zero),
    }
}

// S = (r + k s) mod L, of the bytes of k and of s (step 5).
fn number_s(r: Scalar, k: &[u8], s: &[u8; 32]) -> [u8; 32]
    requires { Low r × (value radix r < L) × (value 256 s.now < 2 ^ 255) }
    ensures { result
        ≡ le_bytes 32 ((value radix r + value 256 k.now % L * value 256 s.now) % L) }
{
    let t = times(k, limbs_of(s));
    bytes_of(plus(r, t))
}

// S, of r and R, A and the two parts of the text (steps 4 and 5).
pub fn second_half(
    first: First,
    s: &[u8; 32],
    a: &[u8; 32],
    context: &[u8],
    text: &[u8],
) -> [u8; 32]
    requires { Low first.number × (value radix first.number < L) × (value 256 s.now < 2 ^ 255)
        × (64 + (length context.now + length text.now) < 2 ^ 64) }
    ensures { result ≡ le_bytes 32 ((value radix first.number + k_of first.string a.now
        (context.now ++ text.now) * value 256 s.now) % L) }
{
    let k = digest(&first.string, a, context, text);
    number_s(first.number, &k, s)
}
