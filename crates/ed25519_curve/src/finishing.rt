// The coordinates of a point, as products: X3 = E F, Y3 = G H, Z3 = F G, T3 = E H (RFC 8032, 5.1.4).
ghost use Rattle.std.specs.Prelude.{◌≡◌};
ghost use Rattle.ed25519_curve.specs.Coords.{pt_of, Good, flat_of, GoodFlat, end_of, Loose};

use super::{Ends, Flat, Point};
use ed25519_field::mul;

pub fn with_t(s: Ends) -> Point
    requires { Loose s }
    ensures { (pt_of result ≡ end_of s) × Good result }
{
    let x = mul(s.e, s.f);
    let y = mul(s.g, s.h);
    let z = mul(s.f, s.g);
    let t = mul(s.e, s.h);
    Point { x, y, z, t }
}

// The same without T. Not one by the other, though it proves: X, Y and Z are then copied once more, and a verification
// takes 32 bytes more of stack and 1,000 instructions more of 746,000.
pub fn without_t(s: Ends) -> Flat
    requires { Loose s }
    ensures { (flat_of result (end_of s).T ≡ end_of s) × GoodFlat result }
{
    let x = mul(s.e, s.f);
    let y = mul(s.g, s.h);
    let z = mul(s.f, s.g);
    Flat { x, y, z }
}
