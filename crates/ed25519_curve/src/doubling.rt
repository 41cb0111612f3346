// The double of a point (RFC 8032, 5.1.4), which asks nothing of its T.
ghost use Rattle.std.specs.Prelude.{◌≡◌, ℕ};
ghost use Rattle.ed25519_field.specs.Limbs.{num, Limbs};
ghost use Rattle.ed25519_curve.specs.Coords.{end_of, Loose, Doubled};
ghost use Rattle.ed25519_curve.specs.Points.{double_with};

use super::Ends;
use ed25519_field::{Fe, add, square, sub};

// The end of a doubling, from A, B, C and the square of X + Y. Not one with `add_with`: both take four sums and
// differences, but of other numbers, as RFC 8032 has them.
fn double_with(a: Fe, b: Fe, c: Fe, s: Fe) -> Ends
    requires { Limbs 1 a × Limbs 1 b × Limbs 2 c × Limbs 1 s }
    ensures { (end_of result ≡ double_with (num a) (num b) (num c) (num s)) × Loose result }
{
    let h = add(a, b);
    let g = sub(a, b);
    let e = sub(h, s);
    let f = add(c, g);
    Ends { e, f, g, h }
}

pub fn doubled(x: Fe, y: Fe, z: Fe) -> Ends
    requires { Limbs 1 x × Limbs 1 y × Limbs 1 z }
    ensures { Doubled (num x) (num y) (num z) (end_of result) × Loose result }
{
    let a = square(x);
    let b = square(y);
    let w = square(z);
    let c = add(w, w);
    let e = add(x, y);
    let s = square(e);
    double_with(a, b, c, s)
}
