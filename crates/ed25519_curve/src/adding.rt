// The sum of two points (RFC 8032, 5.1.4), the second of which is given as a row.
ghost use Rattle.std.specs.Prelude.{◌≡◌};
ghost use Rattle.ed25519_field.specs.Limbs.{num, Limbs};
ghost use Rattle.ed25519_curve.specs.Coords.{Good, end_of, Loose, Even, whole_of, sum_with};
ghost use Rattle.ed25519_curve.specs.Points.{add_with};

use super::{Addend, Ends, Point, Thin};
use ed25519_field::{Fe, add, mul, sub};

// The end of an addition, from A, B, C, D.
fn add_with(a: Fe, b: Fe, c: Fe, d: Fe) -> Ends
    requires { Limbs 1 a × Limbs 1 b × Limbs 1 c × Limbs 2 d }
    ensures { (end_of result ≡ add_with (num a) (num b) (num c) (num d)) × Loose result }
{
    let e = sub(b, a);
    let f = sub(d, c);
    let g = add(d, c);
    let h = add(b, a);
    Ends { e, f, g, h }
}

// p with the row's point added.
pub fn summed(p: Point, r: Addend) -> Ends
    requires { Good p × Even r }
    ensures { (end_of result ≡ sum_with p r) × Loose result }
{
    let a = mul(sub(p.y, p.x), r.minus);
    let b = mul(add(p.y, p.x), r.plus);
    let c = mul(p.t, r.scaled);
    let d = mul(p.z, r.twice);
    add_with(a, b, c, d)
}

// The same where the row's point has Z = 1: D is no product but a sum. Not generic over the row: a trait with a law of
// its D would be longer than the three lines that are alike.
pub fn summed_thin(p: Point, r: Thin) -> Ends
    requires { Good p × Even (whole_of r) }
    ensures { (end_of result ≡ sum_with p (whole_of r)) × Loose result }
{
    let a = mul(sub(p.y, p.x), r.minus);
    let b = mul(add(p.y, p.x), r.plus);
    let c = mul(p.t, r.scaled);
    let d = add(p.z, p.z);
    add_with(a, b, c, d)
}
