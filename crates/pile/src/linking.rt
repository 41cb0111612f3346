// Whether a record is linked to the one before it, and whether the first rand is zero.
ghost use Rattle.std.specs.Prelude.{◌≡◌};
ghost use Rattle.pile.specs.Facts.{Readable};
ghost use Rattle.pile.specs.Links.{unreadable, nonce_links, follows, unlinkable, linked_of, first_rand_zero};

use super::layout::{AREA, RAND, RECORD};
use super::piles::length_bad;
use super::records::{RecordBytes, record_at};
use hash::link;
use octets::{all_zero, copy32, equal};
use wire_message::tags::NONC;
use wire_message::value_of;
use wire_packet::packet::body_of;
use wire_packet::request_bad;

// Whether record k is linked: the NONC of its request is H of the whole response packet of the record before it and its
// own rand. The answer is no where there are no two such records, and where their packets can't be read.
pub fn linked(pile: &[u8], k: usize) -> bool
    ensures { result ≡ linked_of pile.now k }
{
    if unlinkable_at(pile, k) {
        return false;
    }
    let before = record_at(pile, k - 1);
    let r = record_at(pile, k);
    follows_on(&before, &r)
}

// Whether the first record's rand is all zero. The answer is no where the pile is bad.
pub fn first_rand_zero(pile: &[u8]) -> bool
    ensures { result ≡ first_rand_zero pile.now }
{
    if length_bad(pile) {
        return false;
    }
    let r = record_at(pile, 0);
    all_zero(r.rand())
}

// The pile is bad, or has no record k with one before it.
#[tactic(auto, unfolding(crate::specs::Links::unlinkable, laws::specs::Any::any))]
fn unlinkable_at(pile: &[u8], k: usize) -> bool
    ensures { result ≡ unlinkable pile.now k }
{
    length_bad(pile) || k == 0 || pile.len() / RECORD <= k
}

// Whether the record r is linked to the record b before it.
fn follows_on<'a>(b: &RecordBytes<'a>, r: &RecordBytes<'a>) -> bool
    ensures { result ≡ follows b.now.bytes.now r.now.bytes.now }
{
    if out_of_reach(b, r) {
        return false;
    }
    nonce_links(b, r)
}

// The link can't be read: a length is above 2,000, which is more than its area has, or the request of r is bad, and no
// NONC is taken from a bad request.
#[tactic(auto, unfolding(crate::specs::Links::unreadable, laws::specs::Any::any))]
fn out_of_reach<'a>(b: &RecordBytes<'a>, r: &RecordBytes<'a>) -> bool
    ensures { result ≡ unreadable b.now.bytes.now r.now.bytes.now }
{
    AREA < r.request_length() || AREA < b.response_length() || request_bad(r.request())
}

// Whether the request's NONC is the hash that links it. The response is hashed whole, its header included.
fn nonce_links<'a>(b: &RecordBytes<'a>, r: &RecordBytes<'a>) -> bool
    requires { Readable b.now.bytes.now r.now.bytes.now }
    ensures { result ≡ nonce_links b.now.bytes.now r.now.bytes.now }
{
    let made = link(b.response(), copy32(r.bytes, RAND));
    let m = body_of(r.request());
    equal(value_of(m, NONC), &made)
}
