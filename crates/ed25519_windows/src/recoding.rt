// The digits of a scalar, one to a bit, lowest first: 0 for none, an odd number below 16 for itself, and with 16 more
// for what is taken off.
ghost use Rattle.std.specs.Prelude.{◌≡◌, ◌/◌, ◌%◌, ◌^◌, ◌<◌, length};
ghost use Rattle.digits.specs.Digits.{value};
ghost use Rattle.ed25519_field.specs.Limbs.{radix, Digits};
ghost use Rattle.ed25519_windows.specs.OddDigits.{Recoded, Above};

use ed25519_scalar::{Scalar, bit};

// The bits from i to i + 4.
fn five_bits(s: Scalar, i: usize) -> u64
    requires { (i < 256) × Digits s }
    ensures { result ≡ value radix s / 2 ^ i % 32 }
{
    bit(s, i) + 2 * bit(s, i + 1) + 4 * bit(s, i + 2) + 8 * bit(s, i + 3) + 16 * bit(s, i + 4)
}

// From the lowest bit on. Where five bits with the carry are odd they are a digit; from 16 on 32 is taken off, which
// the carry puts back. A digit is a byte with 16 more and no i8, since what digits add and what they take off is counted
// apart, by numbers that are not negative (`plus_of`, `less_of`).
pub fn digits_of(s: Scalar) -> [u8; 256]
    requires { Digits s }
    ensures { Recoded (value radix s) result }
{
    let mut t = [0u8; 256];
    let mut i: usize = 0;
    let mut carry: u64 = 0;
    // while: it goes on by one bit, or by five
    while i < 256 {
        if bit(s, i) == carry {
            i += 1;
        } else {
            let w = five_bits(s, i) + carry;
            if w < 16 {
                t[i] = w as u8;
                carry = 0;
            } else {
                t[i] = (48 - w) as u8;
                carry = 1;
            }
            i += 5;
        }
    }
    t
}

// The first place from which on neither has a digit.
pub fn top(d: &[u8], e: &[u8]) -> usize
    requires { (length d.now ≡ 256) × (length e.now ≡ 256) }
    ensures { Above d.now result × Above e.now result }
{
    // over places, from the last on, since the answer is one
    for i in (0..256).rev() {
        if d[i] != 0 || e[i] != 0 {
            return i + 1;
        }
    }
    0
}
