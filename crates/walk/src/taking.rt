// A response taken: 28, 19, 26, 27, 1 to 13; or its record is written and the walk moves on.
ghost use Rattle.std.specs.Prelude.{◌≡◌, ◌*◌, ◌≤◌, length, Ok};
ghost use Rattle.wire_packet.specs.Packet.{body};
ghost use Rattle.check_response.specs.Check.{window_in};
ghost use Rattle.pile.specs.Layout.{RECORD};
ghost use Rattle.refusal.specs.Refusal.{passes};
ghost use Rattle.walk.specs.State.{Going, request_now};
ghost use Rattle.walk.specs.Taking.{clock_wrong, step_code, take_code, moved_on, SaidOf, Takes};
ghost use Rattle.walk.specs.Taking.{said_number, said_in, next_in, walk_after, pile_after};

use super::asking::{ASKED, over, request_now};
use super::recording::put_record;
use super::{Heard, Said, Stepped, Walk};
use check_response::{Window, check_response};
use hash::link;
use pile::RECORD;
use pile_report::check_report;
use refusal::{Refusal, codes, refuse};

// Takes the response to the request that was asked. A refusal leaves the state and the pile as they were.
pub fn take(w: Walk, h: Heard, response: &[u8], pile: &mut [u8]) -> Result<Stepped, Refusal>
    ensures said_value { said_number (said_in result)
        ≡ (take_code w h response.now (length pile.old)).code }
    ensures takes { Takes w h response.now pile.old (said_in result) }
    ensures walk_value { next_in w result ≡ walk_after (said_in result) w h response.now }
    ensures pile_after { pile.new ≡ pile_after (said_in result) w response.now pile.old }
{
    step_code(w, h, pile.len())?;
    let q = request_now(w);
    let checked = check_response(&q, response, h.delegation, h.signature);
    let window = checked.verdict?;
    Ok(accept(w, h, q, window, response, pile))
}

// Writes the record of a response that nothing refuses, and moves on. The request that was asked is lent, so that it is
// written once for the check and for the record. Six parameters: what was asked and what the check found of it go
// together in this one call alone.
pub fn accept(
    w: Walk,
    h: Heard,
    q: [u8; ASKED],
    window: Window,
    response: &[u8],
    pile: &mut [u8],
) -> Stepped
    requires { ((take_code w h response.now (length pile.old)).code ≡ 0) × (q ≡ request_now w)
        × (window ≡ window_in (body response.now)) }
    ensures said_value { said_number (Ok result.said)
        ≡ (take_code w h response.now (length pile.old)).code }
    ensures takes { Takes w h response.now pile.old (Ok result.said) }
    ensures walk_value { result.walk ≡ walk_after (Ok result.said) w h response.now }
    ensures pile_after { pile.new ≡ pile_after (Ok result.said) w response.now pile.old }
{
    put_record(w, q, response, pile);
    let said = said_of(w, window, pile);
    Stepped {
        said,
        walk: moved_on(w, h, response),
    }
}

// What refuses a response before it is looked at, with a pile of room bytes: 28, 19, 26, 27.
pub fn step_code(w: Walk, h: Heard, room: usize) -> Result<(), Refusal>
    ensures { result ≡ passes (step_code w h room) }
{
    if over(w) {
        return Err(refuse(codes::ENDED));
    }
    if room < 2 * RECORD * w.count {
        return Err(refuse(codes::ROOM));
    }
    if clock_wrong(w, h) {
        return Err(refuse(codes::CLOCK));
    }
    if w.most < h.received - h.sent {
        return Err(refuse(codes::DELAY));
    }
    Ok(())
}

// It was received before it was sent for, or sent for before the last was received.
#[tactic(auto, unfolding(crate::specs::Taking::clock_wrong, laws::specs::Any::any))]
fn clock_wrong(w: Walk, h: Heard) -> bool
    ensures { result ≡ clock_wrong w h }
{
    h.received < h.sent || h.sent < w.last
}

// What is said of a response with this window once its record is written: the last one ends the walk, with what the
// report check says of the pile.
fn said_of(w: Walk, window: Window, pile: &[u8]) -> Said
    requires { Going w × (2 * RECORD * w.count ≤ length pile.now) }
    ensures { SaidOf w window pile.now (Ok result) }
{
    let n = 2 * w.count;
    if w.step + 1 < n {
        return Said::Next(window);
    }
    let yes = [1u8; 32];
    let r = check_report(&pile[..RECORD * n], &yes[..2 * n]);
    Said::Ended(window, r)
}

// The state behind this step: the next nonce is the hash of the response and the rand.
fn moved_on(w: Walk, h: Heard, response: &[u8]) -> Walk
    requires { Going w }
    ensures { result ≡ moved_on w h response.now }
{
    let keys = w.keys;
    let rand = h.rand;
    let nonce = link(response, rand);
    Walk {
        keys: keys,
        count: w.count,
        step: w.step + 1,
        nonce: nonce,
        rand: rand,
        last: h.received,
        most: w.most,
    }
}
