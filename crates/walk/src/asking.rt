// Which server and nonce come next, and the request.
ghost use Rattle.std.specs.Prelude.{◌≡◌, length};
ghost use Rattle.laws.specs.Written.{written};
ghost use Rattle.refusal.specs.Refusal.{passes};
ghost use Rattle.walk.specs.State.{over_of, Going, key_of, request_now};
ghost use Rattle.walk.specs.Asking.{ask_code, asked_of, asked_number};

use super::{Asked, Walk};
use octets::copy32;
use refusal::{Refusal, codes, refuse};
use wire_request::write_request;

// How long our request is (document 01, "Our written request").
pub const ASKED: usize = 1036;

// The request of this step, at the front of out. The state is not changed, so that asking again gives the same.
pub fn ask(w: Walk, out: &mut [u8]) -> Result<Asked, Refusal>
    ensures value { result ≡ asked_of w (length out.old) }
    ensures out_after { out.new ≡ written (asked_number result) (request_now w) out.old }
{
    ask_code(w, out.len())?;
    let key = key_of(w);
    let nonce = w.nonce;
    let _ = write_request(key, nonce, out);
    Ok(Asked {
        server: w.step % w.count,
        nonce,
    })
}

// 28, then 19.
fn ask_code(w: Walk, room: usize) -> Result<(), Refusal>
    ensures { result ≡ passes (ask_code w room) }
{
    if over(w) {
        return Err(refuse(codes::ENDED));
    }
    if room < ASKED {
        return Err(refuse(codes::ROOM));
    }
    Ok(())
}

// The walk has ended. So has a state that has not 3 to 8 servers, which no start hands out.
#[tactic(auto, unfolding(crate::specs::State::over_of, laws::specs::Any::any))]
pub fn over(w: Walk) -> bool
    ensures { result ≡ over_of w }
{
    w.count < 3 || 8 < w.count || 2 * w.count <= w.step
}

// The key of the server that is asked. That the walk goes on is asked by a clause, here and below, and not kept by a
// type: `ask` learns it from `ask_code` and `take` from `step_code`, which hand back no walk, so that a value of that
// type would be made by testing for 28 once more.
pub fn key_of(w: Walk) -> [u8; 32]
    requires { Going w }
    ensures { result ≡ key_of w }
{
    let k = w.step % w.count;
    let keys = w.keys;
    copy32(&keys, 32 * k)
}

// The request that is asked.
pub fn request_now(w: Walk) -> [u8; ASKED]
    requires { Going w }
    ensures { result ≡ request_now w }
{
    let key = key_of(w);
    let nonce = w.nonce;
    let mut q = [0u8; ASKED];
    let _ = write_request(key, nonce, &mut q);
    q
}
