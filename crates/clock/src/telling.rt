// The time at a moment.
ghost use Rattle.std.specs.Prelude.{◌≡◌};
ghost use Rattle.clock.specs.Answer.{time_of, answer_of};

use super::reading::{counting_at, is_too_early, spans_of};
use super::{Clock, Time};
use clock_agreement::{Agreed, agree_on};
use clock_spans::{high_later, low_later};
use refusal::{Refusal, codes, refuse};

// The time at the moment t of the host's own clock, where at most f of the servers that are counted lie.
pub fn time_at(clock: Clock, t: u64, f: u64) -> Result<Time, Refusal>
    ensures { result ≡ answer_of clock t f }
{
    if is_too_early(clock, t) {
        return Err(refuse(codes::CLOCK));
    }
    let counting = counting_at(clock, t);
    let spans = spans_of(clock, t, counting);
    let agreed = agree_on(spans, f)?;
    Ok(time(clock.drift, t.saturating_sub(counting), agreed))
}

// What was agreed on, once the host's clock has gone on by d.
fn time(drift: u32, d: u64, a: Agreed) -> Time
    ensures { result ≡ time_of drift d a }
{
    let low = low_later(drift, a.from, d);
    let high = high_later(drift, a.to, d);
    Time {
        low: low,
        high: high,
        stopped: high == u64::MAX,
        counted: a.counted,
        agree: a.agree,
        suspects: a.suspects,
    }
}
