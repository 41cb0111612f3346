// Rows of the odd multiples of a point.
ghost use Rattle.ed25519_curve.specs.Coords.{Even, whole_of};
ghost use Rattle.ed25519_windows.specs.Windows.{Rows, Turned};

use ed25519_curve::{Addend, Thin, opposite, opposite_thin, row_of, summed, with_t, zero_point};

// The rows of P, 3P, .. 15P, of P's own row. What it needs meanwhile is not to lie on its caller's stack.
#[inline(never)]
pub fn multiples(r: Addend) -> [Addend; 8]
    requires { Even r }
    ensures { Rows r result 8 }
{
    let mut q = with_t(summed(zero_point(), r));
    let two = row_of(with_t(summed(q, r)));
    let mut t = [r; 8];
    // over places: what is promised of a row hangs on its place
    for i in 1..8 {
        let n = with_t(summed(q, two));
        t[i] = row_of(n);
        q = n;
    }
    t
}

// A row, or its opposite. off is a digit's own bit: an enum would be made of it and matched at once.
pub fn signed(r: Addend, off: bool) -> Addend
    requires { Even r }
    ensures { Turned off r result }
{
    if off {
        return opposite(r);
    }
    r
}

// The same of a row with Z = 1. Not generic: what the two share is one `if`, and a trait with a law of the opposite
// would be longer than this is.
pub fn signed_thin(r: Thin, off: bool) -> Thin
    requires { Even (whole_of r) }
    ensures { Turned off (whole_of r) (whole_of result) }
{
    if off {
        return opposite_thin(r);
    }
    r
}
