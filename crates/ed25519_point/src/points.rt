// The point itself (RFC 8032, 5.1.3; point_decompress of section 6).
ghost use Rattle.std.specs.Prelude.{◌≡◌, IfSome};
ghost use Rattle.ed25519_curve.specs.Coords.{Good};
ghost use Rattle.ed25519_point.specs.OfCode.{decoding_in};
ghost use Rattle.ed25519_point.specs.Decoding.{decode_of};

use super::reading::{below_p, masked};
use super::recovering::recover_x;
use digits::bit;
use ed25519_curve::Point;
use ed25519_field::{from_bytes, mul, one};

// The point that the 32 bytes of s stand for.
pub fn decode(s: &[u8; 32]) -> Option<Point>
    ensures { (decoding_in result ≡ decode_of s.now) × IfSome result Good }
{
    let m = masked(*s);
    if !below_p(m) {
        return None;
    }
    let y = from_bytes(&m);
    let x = recover_x(y, bit(s, 255))?;
    let z = one();
    let t = mul(x, y);
    Some(Point { x, y, z, t })
}
