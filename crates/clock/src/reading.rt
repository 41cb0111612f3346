// What the kept windows say of a moment: whether it comes too early to be asked about, the moment of counting, and the
// spans of the servers.
ghost use Rattle.std.specs.Prelude.{◌≡◌, ◌<◌, cond};
ghost use Rattle.clock_spans.specs.Spans.{used_at};
ghost use Rattle.clock.specs.Used.{too_early, counting_at, span_of, spans_of};

use super::Clock;
use clock_spans::{Kept, Span, Spans, is_used, server_span};
use std::array;

// Whether some window was received after the moment t.
pub fn is_too_early(clock: Clock, t: u64) -> bool
    ensures { result ≡ too_early clock t }
{
    clock.kept.iter().any(|w| t < w.received)
}

// When the newest window was received of those that are used at the moment t.
pub fn counting_at(clock: Clock, t: u64) -> u64
    ensures { result ≡ counting_at clock t }
{
    clock
        .kept
        .iter()
        .map(|w| receipt(clock.drift, *w, t))
        .fold(0, |newest, received| newest.max(received))
}

// When a window was received that is used at the moment t, and else 0.
fn receipt(drift: u32, w: Kept, t: u64) -> u64
    ensures { result ≡ cond (used_at drift w t) w.received 0 }
{
    if is_used(drift, w, t) { w.received } else { 0 }
}

// The span of a server.
fn span_of(clock: Clock, t: u64, counting: u64, server: usize) -> Span
    requires { server < 8 }
    ensures { result ≡ span_of clock t counting server }
{
    let newest = clock.kept[2 * server];
    let older = clock.kept[2 * server + 1];
    server_span(clock.drift, newest, older, t, counting)
}

// The spans of the eight.
pub fn spans_of(clock: Clock, t: u64, counting: u64) -> Spans
    ensures { result ≡ spans_of clock t counting }
{
    array::from_fn(
        |s|
            requires { s < 8 }
        { span_of(clock, t, counting, s) },
    )
}
