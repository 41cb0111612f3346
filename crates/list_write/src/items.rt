// What a line is to hold: a source, which is a URL; or an address behind its protocol and a blank.
ghost use Rattle.std.specs.Prelude.{◌≡◌};
ghost use Rattle.list_write.specs.Lines.{is_url, is_address_line, is_protocol, is_item};

use super::Item;
use list_address::{is_address, is_https};
use octets::equal;

// The longest address or URL that the reader takes.
const LONGEST: usize = 2048;

const UDP: [u8; 4] = *b"udp ";

const TCP: [u8; 4] = *b"tcp ";

#[tactic(auto, unfolding(crate::specs::Lines::is_url, laws::specs::Pick::both))]
pub fn is_url(t: &[u8]) -> bool
    ensures { result ≡ is_url t.now }
{
    t.len() <= LONGEST && is_https(t)
}

#[tactic(auto, unfolding(crate::specs::Lines::is_protocol, laws::specs::Pick::either))]
fn is_protocol(t: &[u8]) -> bool
    ensures { result ≡ is_protocol t.now }
{
    equal(t, &UDP) || equal(t, &TCP)
}

fn is_address_line(t: &[u8]) -> bool
    ensures { result ≡ is_address_line t.now }
{
    if t.len() < 4 {
        return false;
    }
    if !is_protocol(&t[..4]) {
        return false;
    }
    if LONGEST < t.len() - 4 {
        return false;
    }
    is_address(&t[4..])
}

// Whether a line's text is what it is to hold. Not by `is_of` of `list_read`: in JSON the protocol of an address is a
// member of its own, and here it stands before the address on its line.
pub fn is_item(t: &[u8], item: Item) -> bool
    ensures { result ≡ is_item item t.now }
{
    match item {
        Item::Source => is_url(t),
        Item::Address => is_address_line(t),
    }
}
