// The multiple itself.
ghost use Rattle.std.specs.Prelude.{◌≡◌};
ghost use Rattle.digits.specs.Digits.{value};
ghost use Rattle.ed25519_curve.specs.Points.{base};
ghost use Rattle.ed25519_curve.specs.Coords.{GoodFlat, Even, whole_of};
ghost use Rattle.ed25519_group_laws.specs.Affine.{times_of, point_of};
ghost use Rattle.ed25519_windows.specs.Windows.{FlatFor};
ghost use Rattle.ed25519_base.specs.Comb.{comb_of, Turn};

use super::columns::{column, row};
use ed25519_curve::{Flat, Thin, doubled, summed_thin, with_t, without_t, zero_flat};
use octets::le64;

// 2 q, and the point of a row.
fn turned(q: Flat, r: Thin) -> Flat
    requires { GoodFlat q × Even (whole_of r) }
    ensures { Turn q (whole_of r) result }
{
    let m = with_t(doubled(q.x, q.y, q.z));
    without_t(summed_thin(m, r))
}

// [s]B, of the four words of s: by name and not in an array, as a column's contract speaks of each.
fn times_words(a: u64, b: u64, c: u64, d: u64, zero: u64) -> Flat
    requires { zero ≡ 0 }
    ensures { GoodFlat result × FlatFor result (times_of (comb_of a b c d 0) (point_of base)) }
{
    let mut q = zero_flat();
    // over the bits' numbers
    for i in (0..64).rev() {
        let k = column(a, b, c, d, i, zero);
        q = turned(q, row(k, zero));
    }
    q
}

// [s]B, of the 32 bytes of s. zero is 0, which the compiler should not know.
pub fn times_base(s: &[u8; 32], zero: u64) -> Flat
    requires { zero ≡ 0 }
    ensures { GoodFlat result × FlatFor result (times_of (value 256 s.now) (point_of base)) }
{
    times_words(le64(s, 0), le64(s, 8), le64(s, 16), le64(s, 24), zero)
}
