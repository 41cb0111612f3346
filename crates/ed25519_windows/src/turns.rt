// The multiples themselves.
ghost use Rattle.digits.specs.Digits.{value};
ghost use Rattle.ed25519_field.specs.Limbs.{radix, Digits};
ghost use Rattle.ed25519_curve.specs.Coords.{GoodFlat, Loose, Even};
ghost use Rattle.ed25519_windows.specs.OddDigits.{Digit};
ghost use Rattle.ed25519_windows.specs.Windows.{Twice, WithBase, WithRow, Paired};

use super::base::base_row;
use super::multiples::{multiples, signed, signed_thin};
use super::recoding::{digits_of, top};
use ed25519_curve::{
    Addend, Ends, Flat, doubled, summed, summed_thin, with_t, without_t, zero_flat,
};
use ed25519_scalar::Scalar;

fn twice(q: Flat) -> Ends
    requires { GoodFlat q }
    ensures { Twice q result }
{
    doubled(q.x, q.y, q.z)
}

// With the multiple of B that digit b is. What it needs meanwhile is not to lie on the stack below `multiples`.
#[inline(never)]
fn with_base(m: Ends, b: u8) -> Ends
    requires { Loose m × Digit b }
    ensures { WithBase m b result }
{
    if b == 0 {
        return m;
    }
    let x = base_row((b % 16 / 2) as usize);
    summed_thin(with_t(m), signed_thin(x, 16 <= b))
}

// With the point of a row, or its opposite: off as `signed` has it. A function in the machine code too, as `with_base`.
#[inline(never)]
fn with_row(m: Ends, y: Addend, off: bool) -> Ends
    requires { Loose m × Even y }
    ensures { WithRow m y off result }
{
    summed(with_t(m), signed(y, off))
}

// [s]B + [k]A, where u is the row of A.
pub fn times_two(s: Scalar, k: Scalar, u: Addend) -> Flat
    requires { Digits s × Digits k × Even u }
    ensures { Paired u (value radix s) (value radix k) result }
{
    let v = multiples(u);
    let d = digits_of(s);
    let e = digits_of(k);
    let mut q = zero_flat();
    // over places, from the first with a digit down
    for i in (0..top(&d, &e)).rev() {
        let b = d[i];
        let c = e[i];
        let m = with_base(twice(q), b);
        if c == 0 {
            q = without_t(m);
        } else {
            let n = (c % 16 / 2) as usize;
            let y = v[n];
            q = without_t(with_row(m, y, 16 <= c));
        }
    }
    q
}
