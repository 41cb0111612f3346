// A host and a port.
ghost use Rattle.std.specs.Prelude.{◌≡◌, ◌<◌, length};
ghost use Rattle.list_address.specs.Address.{divides_at, is_address};

use super::decimal::is_decimal;
use super::host::is_host;

// A host stands before the colon at k, and a port behind it. The port comes first: it has few bytes, so that not much
// is read again where there are many colons.
#[tactic(auto, using(crate::proofs::Tails::tail_all), unfolding(crate::specs::Address::divides_at, crate::specs::Decimal::is_port, laws::specs::Pick::both))]
fn divides_at(s: &[u8], k: usize) -> bool
    requires { k < length s.now }
    ensures { result ≡ divides_at s.now k }
{
    s[k] == b':' && is_decimal(&s[k + 1..], 5, 65535) && is_host(&s[..k])
}

// Whether x is an address as a list of servers has it. It is one call of the library, as `is_clean` is another.
pub fn is_address(x: &[u8]) -> bool
    ensures { result ≡ is_address x.now }
{
    (0..x.len()).any(|k| divides_at(x, k))
}
