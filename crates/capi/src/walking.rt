// The measuring walk, for hosts. The state is memory of the host's, a struct of seven fields. Each crosses by itself,
// those that change as pointers, and the header's inline functions take the struct.
ghost use Rattle.std.specs.Prelude.{◌≡◌, length};
ghost use Rattle.laws.specs.Written.{written};
ghost use Rattle.walk.specs.State.{request_now};
ghost use Rattle.walk.specs.Starting.{started_of, started_number};
ghost use Rattle.walk.specs.Asking.{asked_of};
ghost use Rattle.walk.specs.Taking.{next_in};
ghost use Rattle.walk_signed.specs.Heard.{own_heard};
ghost use Rattle.c_evidence.specs.Walking.{tb_asked};
ghost use Rattle.capi.specs.Walking.{walk_of, walk_started, heard_of, Took};

use c_evidence::{TbAsked, TbTook};
use refusal::Refusal;
use walk::{Heard, Stepped, Walk};
use walk_signed::Exchange;

// Starts a walk: 0, 31 or 19. On a refusal the state stays.
#[unsafe(no_mangle)]
pub extern "C" fn tb_walk_start_fields<'a>(
    keys: &mut [u8; 256],
    count: &mut u64,
    step: &mut u64,
    nonce: &mut [u8; 32],
    rand: &mut [u8; 32],
    last: &mut u64,
    most: &mut u64,
    servers: &'a [u8],
    first: &[u8; 32],
    longest: u64,
    pile: &'a [u8],
) -> u32
    ensures { (result ≡ started_number (started_of servers.now first.now longest (length pile.now)))
        × (walk_of keys.new count.new step.new nonce.new rand.new
        last.new most.new
        ≡ walk_started (started_of servers.now first.now longest (length pile.now))
        (walk_of keys.old count.old step.old nonce.old rand.old
        last.old most.old)) }
{
    match walk::start(servers, *first, longest, pile) {
        Ok(w) => {
            let ks = w.keys;
            *keys = ks;
            *count = w.count as u64;
            *step = w.step as u64;
            let n = w.nonce;
            *nonce = n;
            let r = w.rand;
            *rand = r;
            *last = w.last;
            *most = w.most;
            0
        }
        Err(why) => c_packets::number(why),
    }
}

// What is asked next, with the request at the front of out.
#[unsafe(no_mangle)]
pub extern "C" fn tb_walk_ask_fields(
    keys: &[u8; 256],
    count: u64,
    step: u64,
    nonce: &[u8; 32],
    rand: &[u8; 32],
    last: u64,
    most: u64,
    out: &mut [u8],
) -> TbAsked
    ensures { (result ≡ tb_asked (asked_of
        (walk_of keys.now count step nonce.now rand.now last most)
        (length out.old)))
        × (out.new ≡ written result.code
        (request_now (walk_of keys.now count step nonce.now rand.now last most))
        out.old) }
{
    let w = Walk {
        keys: *keys,
        count: count as usize,
        step: step as usize,
        nonce: *nonce,
        rand: *rand,
        last: last,
        most: most,
    };
    walk::ask(w, out).into()
}

// Takes a response. On a refusal the state and the pile stay.
#[unsafe(no_mangle)]
pub extern "C" fn tb_walk_take_fields(
    keys: &[u8; 256],
    count: u64,
    step: &mut u64,
    nonce: &mut [u8; 32],
    rand: &mut [u8; 32],
    last: &mut u64,
    most: u64,
    delegation: u32,
    signature: u32,
    sent: u64,
    received: u64,
    next: &[u8; 32],
    response: &[u8],
    pile: &mut [u8],
) -> TbTook
    ensures { Took
        (walk_of keys.now count step.old nonce.old rand.old
        last.old most)
        (heard_of delegation signature sent received next.now) response.now pile.old result
        (walk_of keys.now count step.new nonce.new rand.new last.new
        most)
        pile.new }
{
    let w = Walk {
        keys: *keys,
        count: count as usize,
        step: *step as usize,
        nonce: *nonce,
        rand: *rand,
        last: *last,
        most: most,
    };
    let h = Heard {
        delegation: c_packets::yes(delegation),
        signature: c_packets::yes(signature),
        sent: sent,
        received: received,
        rand: *next,
    };
    let m = walk::take(w, h, response, pile);
    let v = next_in(w, m);
    *step = v.step as u64;
    let n = v.nonce;
    *nonce = n;
    let r = v.rand;
    *rand = r;
    *last = v.last;
    m.into()
}

// The state after a call of a taker: a refusal hands out none, and the host's stays.
fn next_in(w: Walk, m: Result<Stepped, Refusal>) -> Walk
    ensures { result ≡ next_in w m }
{
    match m {
        Ok(t) => t.walk,
        Err(_) => w,
    }
}

// Takes a response with no answers lent: its signatures are verified under the key of the server that was asked.
#[unsafe(no_mangle)]
pub extern "C" fn tb_walk_take_signed_fields(
    keys: &[u8; 256],
    count: u64,
    step: &mut u64,
    nonce: &mut [u8; 32],
    rand: &mut [u8; 32],
    last: &mut u64,
    most: u64,
    sent: u64,
    received: u64,
    next: &[u8; 32],
    response: &[u8],
    pile: &mut [u8],
) -> TbTook
    ensures { Took
        (walk_of keys.now count step.old nonce.old rand.old
        last.old most)
        (own_heard
        (walk_of keys.now count step.old nonce.old rand.old
        last.old most)
        sent received next.now response.now)
        response.now pile.old result
        (walk_of keys.now count step.new nonce.new rand.new last.new
        most)
        pile.new }
{
    let w = Walk {
        keys: *keys,
        count: count as usize,
        step: *step as usize,
        nonce: *nonce,
        rand: *rand,
        last: *last,
        most: most,
    };
    let e = Exchange {
        sent: sent,
        received: received,
        rand: *next,
    };
    let m = walk_signed::take_signed(w, e, response, pile);
    let v = next_in(w, m);
    *step = v.step as u64;
    let n = v.nonce;
    *nonce = n;
    let r = v.rand;
    *rand = r;
    *last = v.last;
    m.into()
}
