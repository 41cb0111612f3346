// Hosts: an IPv6 address in brackets, an IPv4 address, or a domain name.
ghost use Rattle.std.specs.Prelude.{◌≡◌};
ghost use Rattle.list_address.specs.Host.{is_bracketed, is_host};

use super::domain::is_domain;
use super::ipv4::is_ipv4;
use super::ipv6::is_ipv6;

fn is_bracketed(s: &[u8]) -> bool
    ensures { result ≡ is_bracketed s.now }
{
    match s {
        [b'[', inside @ .., b']'] => is_ipv6(inside),
        _ => false,
    }
}

#[tactic(auto, unfolding(crate::specs::Host::is_host, laws::specs::Pick::either))]
pub fn is_host(s: &[u8]) -> bool
    ensures { result ≡ is_host s.now }
{
    is_ipv4(s) || is_domain(s) || is_bracketed(s)
}
