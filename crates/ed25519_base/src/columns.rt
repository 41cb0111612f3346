// A column of the four words, and its row of the table.
ghost use Rattle.std.specs.Prelude.{◌≡◌, cond, ◌<◌, eqb};
ghost use Rattle.ed25519_curve.specs.Coords.{whole_of};
ghost use Rattle.ed25519_windows.specs.Windows.{BaseRow};
ghost use Rattle.ed25519_base.specs.Comb.{column_of, teeth_of};

use super::table::row_at;
use choices::{same, select, veiled};
use ed25519_curve::Thin;

// Bit i of each of four words, which `column_of` speaks of one by one. zero is 0, and veils them.
pub fn column(a: u64, b: u64, c: u64, d: u64, i: usize, zero: u64) -> u64
    requires { (i < 64) × (zero ≡ 0) }
    ensures { result ≡ column_of a b c d i }
{
    let x = veiled((a >> i) % 2, zero);
    let y = veiled((b >> i) % 2, zero);
    let z = veiled((c >> i) % 2, zero);
    let w = veiled((d >> i) % 2, zero);
    x + 2 * y + 4 * z + 8 * w
}

// b where the bit is 1, and a where it is 0.
fn picked(bit: u64, a: Thin, b: Thin) -> Thin
    requires { bit < 2 }
    ensures { result ≡ cond (eqb bit 1) b a }
{
    let minus = select(bit, a.minus, b.minus);
    let plus = select(bit, a.plus, b.plus);
    let scaled = select(bit, a.scaled, b.scaled);
    Thin {
        minus,
        plus,
        scaled,
    }
}

// Row k of the table. Every row is read.
pub fn row(k: u64, zero: u64) -> Thin
    requires { (k < 16) × (zero ≡ 0) }
    ensures { BaseRow (teeth_of k) (whole_of result) }
{
    let mut out = row_at(0);
    // over numbers, with which k is compared
    for j in 1..16 {
        let hit = veiled(same(j, k), zero);
        let next = picked(hit, out, row_at(j as usize));
        out = next;
    }
    out
}
