// URLs of the scheme https (RFC 9110, section 4.2.2; RFC 3986).
ghost use Rattle.std.specs.Prelude.{◌≡◌, ◌<◌, length};
ghost use Rattle.list_address.specs.Https.{has_scheme, is_ended, is_authority, clean_at, is_clean, is_rest, is_https};

use super::address::is_address;
use super::chars::{is_hex, is_url_char};
use super::host::is_host;
use json_tokens::byte;

fn has_scheme(s: &[u8]) -> bool
    ensures { result ≡ has_scheme s.now }
{
    8 <= s.len()
        && s.iter()
            .zip(b"https://")
            .all(|(b, w)| b.to_ascii_lowercase() == *w)
}

// A host with a colon behind it, and no port.
fn is_ended(s: &[u8]) -> bool
    ensures { result ≡ is_ended s.now }
{
    match s {
        [host @ .., b':'] => is_host(host),
        _ => false,
    }
}

// A host, with a port or without one.
#[tactic(auto, unfolding(crate::specs::Https::is_authority, laws::specs::Pick::either))]
fn is_authority(s: &[u8]) -> bool
    ensures { result ≡ is_authority s.now }
{
    is_host(s) || is_address(s) || is_ended(s)
}

// A byte of a URL stands at k, or a percent sign with two hexadecimal digits behind it.
#[tactic(auto, unfolding(crate::specs::Https::clean_at, crate::specs::Https::percent_at, laws::specs::Pick::both, laws::specs::Pick::either))]
fn is_clean_at(s: &[u8], k: usize) -> bool
    requires { k < length s.now }
    ensures { result ≡ clean_at s.now k }
{
    match s[k] {
        b'%' => is_hex(byte(s, k + 1)) && is_hex(byte(s, k + 2)),
        b => is_url_char(b),
    }
}

#[tactic(auto, using(laws::proofs::Ranges::range_nowhere), unfolding(crate::specs::Https::is_clean))]
fn is_clean(s: &[u8]) -> bool
    ensures { result ≡ is_clean s.now }
{
    (0..s.len()).all(|k| is_clean_at(s, k))
}

// What stands behind the authority.
fn is_rest(s: &[u8]) -> bool
    ensures { result ≡ is_rest s.now }
{
    match s.iter().position(|b| *b == b'#') {
        Some(k) => is_clean(&s[..k]) && is_clean(&s[k + 1..]),
        None => is_clean(s),
    }
}

// Whether x is a URL of the scheme https, with a host and no user's name.
pub fn is_https(x: &[u8]) -> bool
    ensures { result ≡ is_https x.now }
{
    if !has_scheme(x) {
        return false;
    }
    let behind = &x[8..];
    let e = behind
        .iter()
        .position(|b| b"/?#".contains(b))
        .unwrap_or(behind.len());
    is_authority(&behind[..e]) && is_rest(&behind[e..])
}
