// The string that a point is coded as (RFC 8032, 5.1.2), from coordinates with any Z.
ghost use Rattle.std.specs.Prelude.{◌≡◌};
ghost use Rattle.ed25519_curve.specs.Coords.{GoodFlat};
ghost use Rattle.ed25519_point.specs.Encoding.{encode_of};
ghost use Rattle.ed25519_group_laws.specs.Affine.{Affine};
ghost use Rattle.ed25519_windows.specs.Windows.{FlatFor};

use ed25519_curve::Flat;
use ed25519_field::{inverse, mul};
use ed25519_point::encode;

// x = X/Z and y = Y/Z.
pub fn encoded(q: Flat) -> [u8; 32]
    requires { GoodFlat q }
    ensures { (a : Affine) → FlatFor q a → result ≡ encode_of a.x a.y }
{
    let i = inverse(q.z);
    encode(mul(q.x, i), mul(q.y, i))
}
