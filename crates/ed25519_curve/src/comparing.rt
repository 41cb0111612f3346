// Points compared (RFC 8032, section 6, point_equal).
ghost use Rattle.std.specs.Prelude.{◌≡◌, ℕ};
ghost use Rattle.ed25519_curve.specs.Coords.{pt_of, Good, flat_of, GoodFlat};
ghost use Rattle.ed25519_curve.specs.Points.{point_equal};

use super::{Flat, Point};
use ed25519_field::{mul, same};

pub fn point_equal(a: Flat, b: Point) -> bool
    requires { GoodFlat a × Good b }
    ensures { (t : ℕ) → result ≡ point_equal (flat_of a t) (pt_of b) }
{
    same(mul(a.x, b.z), mul(b.x, a.z)) && same(mul(a.y, b.z), mul(b.y, a.z))
}
