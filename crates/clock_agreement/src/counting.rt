// The points that lie in the spans of enough servers (Marzullo 1984).
ghost use Rattle.std.specs.Prelude.{◌≡◌, ◌<◌};
ghost use Rattle.clock_agreement.specs.Count.{in_span, count_of, depth_of, lowest_of, highest_of};

use clock_spans::{Span, Spans};

// How many servers are counted.
pub fn count(spans: Spans) -> u64
    ensures { result ≡ count_of spans }
{
    spans.iter().filter(|span| span.counted).count() as u64
}

// In how many servers' spans x lies.
pub fn depth(spans: Spans, x: u64) -> u64
    ensures { result ≡ depth_of spans x }
{
    spans.iter().filter(|span| in_span(**span, x)).count() as u64
}

fn in_span(span: Span, x: u64) -> bool
    ensures { result ≡ in_span x span }
{
    span.counted && span.low <= x && x <= span.high
}

// The least point that lies in n spans, and the last one where none does. One of the low ends is it.
pub fn lowest(spans: Spans, n: u64) -> u64
    requires { 0 < n }
    ensures { result ≡ lowest_of spans n }
{
    spans
        .iter()
        .map(|span| span.low)
        .filter(|x| n <= depth(spans, *x))
        .fold(u64::MAX, |best, x| best.min(x))
}

// The greatest, and 0 where none does. One of the high ends is it: the least, counted from the last point down.
pub fn highest(spans: Spans, n: u64) -> u64
    requires { 0 < n }
    ensures { result ≡ highest_of spans n }
{
    let down = spans
        .iter()
        .map(|span| u64::MAX - span.high)
        .filter(|d| n <= depth(spans, u64::MAX - *d))
        .fold(u64::MAX, |best, d| best.min(d));
    u64::MAX - down
}
