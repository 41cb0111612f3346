// One of two, chosen with no branch and no address that hangs on the choice; and the veil, without which the compiler
// makes branches of such choices again. A bit is a word below 2 and no bool, and `same` no ==, since of these a compiler
// makes branches.
#![tactic(auto)]

ghost use Rattle.std.specs.Prelude.{◌≡◌, cond, ◌<◌, eqb};

use std::array;

// b where the bit is 1, and a where it is 0.
pub fn word(bit: u64, a: u64, b: u64) -> u64
    requires { bit < 2 }
    ensures { result ≡ cond (eqb bit 1) b a }
{
    let m = bit * u64::MAX;
    let n = (1 - bit) * u64::MAX;
    (a & n) | (b & m)
}

// 1 where two words below 16 are the same, and 0 else.
pub fn same(j: u64, k: u64) -> u64
    requires { (j < 16) × (k < 16) }
    ensures { result ≡ cond (eqb j k) 1 0 }
{
    (16 - (j ^ k)) / 16
}

// Five limbs: b where the bit is 1, and a where it is 0.
pub fn select(bit: u64, a: [u64; 5], b: [u64; 5]) -> [u64; 5]
    requires { bit < 2 }
    ensures { result ≡ cond (eqb bit 1) b a }
{
    array::from_fn(
        |i|
            requires { (bit < 2) × (i < 5) }
        { word(bit, a[i], b[i]) },
    )
}

// 0, of which a compiler does not know that it is 0: 2 is no square modulo 3. n is any word that is known only when the
// program runs, a secret one too: nothing branches on it.
pub fn still(n: u64) -> u64
    ensures { result ≡ 0 }
{
    let y = n % 65536;
    y * y % 3 / 2
}

// The same bit, of which a compiler does not know that it is 0 or 1.
pub fn veiled(bit: u64, zero: u64) -> u64
    requires { (bit < 2) × (zero ≡ 0) }
    ensures { result ≡ bit }
{
    bit + zero
}
