// The addresses of a server.
ghost use Rattle.std.specs.Prelude.{◌≡◌, ◌<◌, length};
ghost use Rattle.report_read.specs.Entry.{elements_of};
ghost use Rattle.list_read.specs.Server.{is_protocol, in_addresses};
ghost use Rattle.list_read.specs.Facts.{counted_of, address_seen};

use super::elements::{first_item, next_past};
use super::texts::is_sort;
use super::values::{is_word, string_place};
use super::{IN_ADDRESS, IN_ADDRESSES, SeenAddress, Sort};
use json_tokens::byte;
use json_values::members;

// One of the two protocols.
#[tactic(auto, unfolding(crate::specs::Server::is_protocol, laws::specs::Pick::either))]
fn is_protocol(s: &[u8], x: Option<usize>) -> bool
    ensures { result ≡ is_protocol s.now x }
{
    is_word(s, x, b"udp") || is_word(s, x, b"tcp")
}

// An address object at its place, in one walk over it.
fn see_address(s: &[u8], k: usize) -> Option<SeenAddress>
    ensures { result ≡ address_seen s.now k }
{
    let b = byte(s, k);
    if b != b'{' {
        return None;
    }
    let none: &[u8] = b"";
    let m = members(s, k, IN_ADDRESS, b"protocol", b"address", none, none, none);
    let protocol = m.a;
    let address = m.b;
    if !is_protocol(s, string_place(s, protocol)) {
        return None;
    }
    if !is_sort(s, address, Sort::Place) {
        return None;
    }
    Some(SeenAddress { end: m.end })
}

// How many addresses the list at a place has, if each is an address object.
pub fn addresses_in(s: &[u8], v: usize) -> Option<usize>
    requires { v < length s.now }
    ensures { result ≡ counted_of s.now (elements_of s.now in_addresses v) }
{
    let mut at = first_item(s, v, IN_ADDRESSES);
    let mut n = 0;
    // while: where the next one starts is learned from the look at this one, so that no text is walked over twice.
    while let Some(k) = at {
        let seen = see_address(s, k)?;
        n += 1;
        at = next_past(s, seen.end);
    }
    Some(n)
}
