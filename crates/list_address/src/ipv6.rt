// IPv6 addresses (RFC 4291, section 2.2).
ghost use Rattle.std.specs.Prelude.{◌≡◌, true, ◌+◌, ◌<◌, ◌≤◌, length};
ghost use Rattle.std.specs.Option.{IfSome};
ghost use Rattle.list_address.specs.Host.{double_at, pieces, side, is_shortened, is_ipv6};
ghost use Rattle.list_address.specs.Facts.{last_pieces};

use super::ipv4::is_ipv4;
use super::parts::{is_group, line};
use json_tokens::byte;

#[tactic(auto, unfolding(crate::specs::Host::double_at, laws::specs::Pick::both))]
fn is_double(s: &[u8], k: usize) -> bool
    requires { k < length s.now }
    ensures { result ≡ double_at s.now k }
{
    s[k] == b':' && byte(s, k + 1) == b':'
}

// How many pieces of 16 bits the last part is; with `tail` it may be an IPv4 address. A bool says that, as in the
// definition of `pieces`: the test that it adds is one call, made here alone.
#[tactic(auto, unfolding(crate::specs::Facts::last_pieces, crate::specs::Parts::or_else, crate::specs::Parts::plus, laws::specs::Pick::pick))]
fn last_pieces(last: &[u8], tail: bool) -> Option<usize>
    ensures value { result ≡ last_pieces tail last.now }
    ensures bound { IfSome result (λ n. n ≤ 2) }
{
    if is_group(last) {
        return Some(1);
    }
    if tail && is_ipv4(last) { Some(2) } else { None }
}

// How many pieces stand there, if each is one; with `tail` an IPv4 address may be the last two.
fn pieces(s: &[u8], tail: bool) -> Option<usize>
    ensures value { result ≡ pieces tail s.now }
    ensures bound { IfSome result (λ n. n ≤ length s.now + 2) }
{
    let (n, last) = line(s, b':', is_group)?;
    let m = last_pieces(last, tail)?;
    Some(n + m)
}

// The same on one side of "::", where none may stand.
#[tactic(auto, unfolding(crate::specs::Host::side, laws::specs::Pick::pick))]
fn side(s: &[u8], tail: bool) -> Option<usize>
    ensures value { result ≡ side tail s.now }
    ensures bound { IfSome result (λ n. n ≤ length s.now + 2) }
{
    if s.is_empty() {
        return Some(0);
    }
    pieces(s, tail)
}

// The pieces around the "::" at k, which stands for one piece or more.
fn is_shortened(s: &[u8], k: usize) -> bool
    requires { (k < length s.now) × (double_at s.now k ≡ true) }
    ensures { result ≡ is_shortened s.now k }
{
    let Some(a) = side(&s[..k], false) else {
        return false;
    };
    let Some(b) = side(&s[k + 2..], true) else {
        return false;
    };
    a + b <= 7
}

pub fn is_ipv6(s: &[u8]) -> bool
    ensures { result ≡ is_ipv6 s.now }
{
    match (0..s.len()).position(|k| is_double(s, k)) {
        Some(k) => is_shortened(s, k),
        None => pieces(s, true) == Some(8),
    }
}
