// Domain names (RFC 1035, section 2.3.1, and RFC 1123, section 2.1).
ghost use Rattle.std.specs.Prelude.{◌≡◌};
ghost use Rattle.list_address.specs.Host.{is_last_label, is_name, is_domain};

use super::parts::{is_label, line};

#[tactic(auto, using(crate::proofs::Scans::every_all), unfolding(crate::specs::Host::is_last_label, laws::specs::Pick::both))]
fn is_last_label(s: &[u8]) -> bool
    ensures { result ≡ is_last_label s.now }
{
    is_label(s) && !s.iter().all(|b| b.is_ascii_digit())
}

// A name with no dot at its end.
fn is_name(s: &[u8]) -> bool
    ensures { result ≡ is_name s.now }
{
    if 253 < s.len() {
        return false;
    }
    let Some((_, last)) = line(s, b'.', is_label) else {
        return false;
    };
    is_last_label(last)
}

pub fn is_domain(s: &[u8]) -> bool
    ensures { result ≡ is_domain s.now }
{
    match s {
        [name @ .., b'.'] => is_name(name),
        _ => is_name(s),
    }
}
