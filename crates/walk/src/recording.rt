// One record of the pile.
ghost use Rattle.std.specs.Prelude.{◌≡◌, ◌+◌, ◌*◌, ◌≤◌, length};
ghost use Rattle.laws.specs.Pasted.{pasted};
ghost use Rattle.pile.specs.Layout.{RECORD, AREA};
ghost use Rattle.pile.specs.Recording.{head_bytes, record_bytes};
ghost use Rattle.walk.specs.State.{ASKED, Going, request_now};
ghost use Rattle.walk.specs.Taking.{record_now};

use super::Walk;
use super::asking::{ASKED, key_of};
use octets::{le32_bytes, put, zero};
use pile::layout::{KEY, RAND, RECORD, REQUEST, REQUEST_LENGTH, RESPONSE, RESPONSE_LENGTH};

// The record of this step, with the request that was asked, in its place in the pile. Every other byte stays.
pub fn put_record(w: Walk, q: [u8; ASKED], response: &[u8], pile: &mut [u8])
    requires { Going w × (q ≡ request_now w) × (length response.now ≤ AREA)
        × (RECORD * w.step + RECORD ≤ length pile.old) }
    ensures { pile.new ≡ pasted pile.old (RECORD * w.step) (record_now w response.now) }
{
    let key = key_of(w);
    let rand = w.rand;
    let at = RECORD * w.step;
    lay(key, rand, q, response, &mut pile[at..at + RECORD]);
}

// The record of a key, a rand, our request and its response.
fn lay(key: [u8; 32], rand: [u8; 32], q: [u8; ASKED], response: &[u8], out: &mut [u8])
    requires { (length response.now ≤ AREA) × (length out.old ≡ RECORD) }
    ensures { out.new ≡ record_bytes key rand q response.now }
{
    let h = heading(key, rand, response.len() as u32);
    put(out, KEY, &h);
    put(out, REQUEST, &q);
    zero(out, REQUEST + ASKED, RESPONSE);
    put(out, RESPONSE, response);
    zero(out, RESPONSE + response.len(), RECORD);
}

// Key, rand, the two lengths and zeros: what stands before the packets.
fn heading(key: [u8; 32], rand: [u8; 32], n: u32) -> [u8; REQUEST]
    ensures { result ≡ head_bytes key rand ASKED n }
{
    let mut h = [0u8; REQUEST];
    let q = le32_bytes(ASKED as u32);
    let m = le32_bytes(n);
    put(&mut h, KEY, &key);
    put(&mut h, RAND, &rand);
    put(&mut h, REQUEST_LENGTH, &q);
    put(&mut h, RESPONSE_LENGTH, &m);
    h
}
