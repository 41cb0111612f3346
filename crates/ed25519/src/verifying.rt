// The verification (RFC 8032, 5.1.7; verify of section 6).
ghost use Rattle.std.specs.Prelude.{◌≡◌, ◌++◌, ◌+◌, ◌^◌, ◌<◌, length};
ghost use Rattle.digits.specs.Digits.{value};
ghost use Rattle.ed25519_field.specs.Limbs.{radix, Digits};
ghost use Rattle.ed25519_field.specs.Residue.{Low};
ghost use Rattle.ed25519_curve.specs.Coords.{pt_of, Good};
ghost use Rattle.ed25519_windows.specs.Windows.{Itself};
ghost use Rattle.ed25519.specs.Verification.{group_equation, accepts, verifies, verifies_parts};

use super::hashing::hash;
use ed25519_curve::{Point, opposite, point_equal, row_of};
use ed25519_field::limbs_of;
use ed25519_point::decode;
use ed25519_scalar::{Scalar, below_order};
use ed25519_windows::times_two;
use octets::copy32;

// The most bytes that a text may have: with R and A as many as a message in pieces may, 2^64 - 1.
pub const MOST_TEXT: usize = 0xffff_ffff_ffff_ffbf;

// Whether [S]B = R + [k]A, as [S]B + [k](-A) = R.
fn group_equation(a: Point, r: Point, s: Scalar, k: Scalar) -> bool
    requires { Good a × Good r × Itself (pt_of a) × Itself (pt_of r) × Low s × Low k × Digits s × Digits k }
    ensures { result ≡ group_equation (pt_of a) (pt_of r) (value radix s) (value radix k) }
{
    let minus = opposite(row_of(a));
    point_equal(times_two(s, k, minus), r)
}

// Of a key and the halves of a signature.
fn check(key: &[u8; 32], context: &[u8], text: &[u8], r: &[u8; 32], s: &[u8; 32]) -> bool
    requires { 64 + (length context.now + length text.now) < 2 ^ 64 }
    ensures { result ≡ accepts key.now (context.now ++ text.now) r.now
        s.now }
{
    let Some(a) = decode(key) else {
        return false;
    };
    let Some(q) = decode(r) else {
        return false;
    };
    below_order(s) && group_equation(a, q, limbs_of(s), hash(r, key, context, text))
}

// Whether the signature of the text that is context and then value verifies under the key.
pub fn verify_parts(key: &[u8], context: &[u8], value: &[u8], signature: &[u8]) -> bool
    ensures { result ≡ verifies_parts key.now context.now value.now
        signature.now }
{
    if value.len() > MOST_TEXT - context.len() {
        return false;
    }
    if key.len() != 32 {
        return false;
    }
    if signature.len() != 64 {
        return false;
    }
    let a = copy32(key, 0);
    let r = copy32(signature, 0);
    let s = copy32(signature, 32);
    check(&a, context, value, &r, &s)
}

// Whether the signature of the text verifies under the key.
pub fn verify(key: &[u8], text: &[u8], signature: &[u8]) -> bool
    ensures { result ≡ verifies key.now text.now signature.now }
{
    verify_parts(key, &[], text, signature)
}
