// The 32 bytes of a point (RFC 8032, 5.1.2).
ghost use Rattle.std.specs.Prelude.{◌≡◌};
ghost use Rattle.ed25519_field.specs.Limbs.{num, Limbs};
ghost use Rattle.ed25519_point.specs.Encoding.{encode_of};

use ed25519_field::{Fe, odd, to_bytes};

// The bytes of y, with the lowest bit of x in the highest of the last byte, which is 0 in y. Nothing branches.
pub fn encode(x: Fe, y: Fe) -> [u8; 32]
    requires { Limbs 1 x × Limbs 1 y }
    ensures { result ≡ encode_of (num x) (num y) }
{
    let sign = odd(x) as u8;
    let mut out = to_bytes(y);
    let last = out[31];
    out[31] = last + 128 * sign;
    out
}
