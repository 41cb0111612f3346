// The x of a point from its y and its sign (steps 2 to 4 of RFC 8032, 5.1.3; recover_x of section 6).
ghost use Rattle.std.specs.Prelude.{◌≡◌, ◌<◌, IfSome};
ghost use Rattle.ed25519_field.specs.Limbs.{num, Limbs};
ghost use Rattle.ed25519_point.specs.OfCode.{root_in};
ghost use Rattle.ed25519_point.specs.Decoding.{signed_of, recover_x};

use super::constants::curve_d;
use super::roots::root;
use ed25519_field::{Fe, add, minus, mul, odd, one, same, sub, tidy, zero};

// The one of the two roots whose lowest bit is the sign.
fn signed(sign: u64, x: Fe) -> Option<Fe>
    requires { (sign < 2) × Limbs 1 x }
    ensures { (root_in result ≡ signed_of sign (num x)) × IfSome result (Limbs 1) }
{
    if same(x, zero()) && sign == 1 {
        return None;
    }
    if odd(x) == sign {
        return Some(x);
    }
    let m = minus(x);
    Some(m)
}

pub fn recover_x(y: Fe, sign: u64) -> Option<Fe>
    requires { Limbs 1 y × (sign < 2) }
    ensures { (root_in result ≡ recover_x (num y) sign) × IfSome result (Limbs 1) }
{
    let q = mul(y, y);
    let u = tidy(sub(q, one()));
    let v = tidy(add(mul(curve_d(), q), one()));
    let x = root(u, v)?;
    signed(sign, x)
}
