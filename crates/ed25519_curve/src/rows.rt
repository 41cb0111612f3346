// What an addition takes of its second point.
ghost use Rattle.std.specs.Prelude.{◌≡◌};
ghost use Rattle.ed25519_field.specs.Limbs.{Limbs};
ghost use Rattle.ed25519_curve.specs.Coords.{pt_of, Good, Cached, Opposed, whole_of};

use super::constants::two_d;
use super::{Addend, Point, Thin};
use ed25519_field::{add, minus, mul, sub};

pub fn row_of(p: Point) -> Addend
    requires { Good p }
    ensures { Cached (pt_of p) result }
{
    let minus = sub(p.y, p.x);
    let plus = add(p.y, p.x);
    let twice = add(p.z, p.z);
    let scaled = mul(p.t, two_d());
    Addend {
        minus,
        plus,
        twice,
        scaled,
    }
}

// The row of (-x, y).
pub fn opposite(r: Addend) -> Addend
    requires { Limbs 1 r.scaled }
    ensures { Opposed r result }
{
    let scaled = minus(r.scaled);
    let minus = r.plus;
    let plus = r.minus;
    let twice = r.twice;
    Addend {
        minus,
        plus,
        twice,
        scaled,
    }
}

// The same of a row without 2 Z. Not generic: a trait of rows with a law of the opposite would be longer than this is.
pub fn opposite_thin(r: Thin) -> Thin
    requires { Limbs 1 r.scaled }
    ensures { Opposed (whole_of r) (whole_of result) }
{
    let scaled = minus(r.scaled);
    let minus = r.plus;
    let plus = r.minus;
    Thin {
        minus,
        plus,
        scaled,
    }
}
