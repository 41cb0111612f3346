// The state: start, and take window after window.
ghost use Rattle.std.specs.Prelude.{◌≡◌, ◌<◌};
ghost use Rattle.refusal.specs.Refusal.{passes};
ghost use Rattle.clock.specs.State.{started_of, take_code, keeping, taken_of};

use super::Clock;
use clock_spans::Kept;
use refusal::{Refusal, codes, refuse};

// No window.
const NONE: Kept = Kept {
    low: 0,
    high: 0,
    maxt: 0,
    sent: 0,
    received: 0,
};

// A state before any window, by a clock that goes wrong by at most drift parts per million; or 32.
pub fn start(drift: u32) -> Result<Clock, Refusal>
    ensures { result ≡ started_of drift }
{
    if 999_999 < drift {
        return Err(refuse(codes::CLOCK_INPUT));
    }
    Ok(Clock {
        drift,
        kept: [NONE; 16],
    })
}

// The state with one window more of a server. A refusal hands out none: the caller's stays.
pub fn take(clock: Clock, server: usize, w: Kept) -> Result<Clock, Refusal>
    ensures { result ≡ taken_of clock server w }
{
    take_code(clock, server, w)?;
    Ok(keeping(clock, server, w))
}

// 32, then 26.
fn take_code(clock: Clock, server: usize, w: Kept) -> Result<(), Refusal>
    ensures { result ≡ passes (take_code clock server w) }
{
    if 7 < server {
        return Err(refuse(codes::CLOCK_INPUT));
    }
    if w.received < w.sent {
        return Err(refuse(codes::CLOCK));
    }
    if w.received < clock.kept[2 * server].received {
        return Err(refuse(codes::CLOCK));
    }
    Ok(())
}

// The window in its place, before the one that was the newest.
fn keeping(clock: Clock, server: usize, w: Kept) -> Clock
    requires { server < 8 }
    ensures { result ≡ keeping clock server w }
{
    let mut kept = clock.kept;
    kept[2 * server + 1] = kept[2 * server];
    kept[2 * server] = w;
    Clock {
        drift: clock.drift,
        kept,
    }
}
