// A response taken, its signatures verified.
ghost use Rattle.std.specs.Prelude.{◌≡◌, length};
ghost use Rattle.walk.specs.Taking.{take_code, Takes, said_number, said_in, next_in};
ghost use Rattle.walk.specs.Taking.{walk_after, pile_after};
ghost use Rattle.walk_signed.specs.Heard.{own_heard};

use super::Exchange;
use check_signatures::check_signed;
use refusal::Refusal;
use walk::{Heard, Stepped, Walk, accept, key_of, request_now, step_code};

// Takes the response to the request that was asked, as the walk's taker does, but by the check that verifies signatures
// itself. They are verified only where nothing else refuses the response: 12 and 13 come last. A response that is
// accepted has both right, so that two answers of yes are what was heard of it. A refusal leaves the state and the pile
// as they were.
pub fn take_signed(
    w: Walk,
    e: Exchange,
    response: &[u8],
    pile: &mut [u8],
) -> Result<Stepped, Refusal>
    ensures said_value { said_number (said_in result)
        ≡ (take_code w (own_heard w e.sent e.received e.rand response.now) response.now
        (length pile.old)).code }
    ensures takes { Takes w (own_heard w e.sent e.received e.rand response.now) response.now
        pile.old (said_in result) }
    ensures walk_value { next_in w result
        ≡ walk_after (said_in result) w (own_heard w e.sent e.received e.rand response.now)
        response.now }
    ensures pile_after { pile.new ≡ pile_after (said_in result) w response.now pile.old }
{
    let rand = e.rand;
    let both = Heard {
        delegation: true,
        signature: true,
        sent: e.sent,
        received: e.received,
        rand,
    };
    step_code(w, both, pile.len())?;
    let q = request_now(w);
    let key = key_of(w);
    let checked = check_signed(key, &q, response);
    let window = checked.verdict?;
    Ok(accept(w, both, q, window, response, pile))
}
