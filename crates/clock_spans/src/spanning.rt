// Which windows are used at the moment that is asked about, and the span of a server at the moment of counting.
ghost use Rattle.std.specs.Prelude.{◌≡◌, ◌||◌};
ghost use Rattle.clock_spans.specs.Spans.{low_at, high_at, used_at, unknown, span_at, meet, server_span};

use super::drifting::{high_later, low_later};
use super::{Kept, Span};

// The low end of a window at the moment t. The two ends have a function each, as in `drifting`: they differ in the
// formula, and in the moment from which an end goes on.
#[tactic(auto, unfolding(crate::specs::Spans::low_at, crate::specs::Drift::low_later))]
fn low_at(drift: u32, w: Kept, t: u64) -> u64
    ensures { result ≡ low_at drift w t }
{
    let low = w.low.saturating_mul(1_000_000);
    low_later(drift, low, t.saturating_sub(w.received))
}

#[tactic(auto, unfolding(crate::specs::Spans::high_at, crate::specs::Drift::high_later))]
fn high_at(drift: u32, w: Kept, t: u64) -> u64
    ensures { result ≡ high_at drift w t }
{
    let high = w.high.saturating_mul(1_000_000);
    high_later(drift, high, t.saturating_sub(w.sent))
}

// Whether a window is used at the moment t.
#[tactic(auto, unfolding(crate::specs::Spans::used_at))]
pub fn is_used(drift: u32, w: Kept, t: u64) -> bool
    ensures { result ≡ used_at drift w t }
{
    w.maxt != 0 && high_at(drift, w, t) / 1_000_000 <= w.maxt
}

// Of what nothing is said.
const UNKNOWN: Span = Span {
    counted: false,
    low: 0,
    high: u64::MAX,
};

// The span of a window. One that is not used at the moment t says nothing.
#[tactic(auto, unfolding(crate::specs::Spans::span_at))]
fn span_at(drift: u32, w: Kept, t: u64, counting: u64) -> Span
    ensures { result ≡ span_at drift t counting w }
{
    if !is_used(drift, w, t) {
        return UNKNOWN;
    }
    Span {
        counted: true,
        low: low_at(drift, w, counting),
        high: high_at(drift, w, counting),
    }
}

// What two say together.
fn meeting(a: Span, b: Span) -> Span
    ensures { result ≡ meet a b }
{
    Span {
        counted: a.counted || b.counted,
        low: a.low.max(b.low),
        high: a.high.min(b.high),
    }
}

// The span of a server with these two windows.
#[tactic(auto, unfolding(crate::specs::Spans::server_span))]
pub fn server_span(drift: u32, newest: Kept, older: Kept, t: u64, counting: u64) -> Span
    ensures { result ≡ server_span drift t counting newest older }
{
    meeting(
        span_at(drift, newest, t, counting),
        span_at(drift, older, t, counting),
    )
}
