// Numbers in decimal digits: a port, and an octet of an IPv4 address.
ghost use Rattle.std.specs.Prelude.{◌≡◌, ◌+◌, ◌-◌, ◌*◌, ◌≤◌, ◌<◌, length};
ghost use Rattle.list_address.specs.Decimal.{worth, unpadded, is_decimal, is_octet};

use super::chars::is_digit;
use super::scan::is_run;

// The number with one digit more.
fn next(n: u64, d: u8) -> u64
    requires { n < 100000000 }
    ensures { (result ≡ 10 * n + (d - 48)) × (result ≤ 10 * n + 255) }
{
    10 * n + d.saturating_sub(b'0') as u64
}

fn value(s: &[u8]) -> u64
    requires { length s.now ≤ 5 }
    ensures { result ≡ worth 0 s.now }
{
    let mut n: u64 = 0;
    for d in s {
        n = next(n, *d);
    }
    n
}

// No zero stands before other digits.
#[tactic(auto, unfolding(crate::specs::Decimal::unpadded, laws::specs::Pick::either))]
fn is_unpadded(s: &[u8]) -> bool
    ensures { result ≡ unpadded s.now }
{
    !matches!(s, [b'0', _, ..])
}

#[tactic(auto, using(crate::proofs::Sizes::run_long), unfolding(crate::specs::Decimal::is_decimal, laws::specs::Pick::both))]
pub fn is_decimal(s: &[u8], wide: usize, most: u64) -> bool
    requires { wide ≤ 5 }
    ensures { result ≡ is_decimal wide most s.now }
{
    if !is_run(s, wide, is_digit) {
        return false;
    }
    is_unpadded(s) && value(s) <= most
}

#[tactic(auto, unfolding(crate::specs::Decimal::is_octet))]
pub fn is_octet(s: &[u8]) -> bool
    ensures { result ≡ is_octet s.now }
{
    is_decimal(s, 3, 255)
}
