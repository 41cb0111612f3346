// Which servers agree with the time, and which are suspect: sets in which server s counts 2^s.
ghost use Rattle.std.specs.Prelude.{◌≡◌, Bool};
ghost use Rattle.clock_spans.specs.declared.Span.{Span};
ghost use Rattle.clock_agreement.specs.Many.{set_of};
ghost use Rattle.clock_agreement.specs.Count.{meets, misses, span_in};

use clock_spans::{Span, Spans};

// The servers whose spans pass a test.
pub fn set_of<F: Fn(Span) -> bool>(spans: Spans, test: F) -> u64
    requires { F.IsAlwaysCallable test }
    ensures { (p : Span → Bool) → ((r : Span) (b : Bool) → F.post test r b → b ≡ p r)
        → result ≡ set_of (λ s. p (span_in spans s)) 8 }
{
    let mut set = 0;
    for (s, span) in spans.iter().enumerate() {
        if test(*span) {
            set += 1 << s;
        }
    }
    set
}

// Whether a server is counted and a point from low to high lies in its span.
pub fn is_meeting(span: Span, low: u64, high: u64) -> bool
    ensures { result ≡ meets low high span }
{
    span.counted && low.max(span.low) <= high.min(span.high)
}

// Whether it is counted and none does.
pub fn is_missing(span: Span, low: u64, high: u64) -> bool
    ensures { result ≡ misses low high span }
{
    span.counted && high.min(span.high) < low.max(span.low)
}
