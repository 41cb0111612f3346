// How much time passes while the host's own clock goes on, and an end that goes on with it. The two ends have a function
// each: they differ in the formula, and one with the end as a parameter would choose between two bodies.
ghost use Rattle.std.specs.Prelude.{◌≡◌, min};
ghost use Rattle.clock_spans.specs.Drift.{last, least_passed, most_passed, low_later, high_later};

// The least that passes. The product is taken in two parts, neither of which wraps.
fn least_passed(drift: u32, d: u64) -> u64
    ensures { result ≡ least_passed drift d }
{
    let rate = 1_000_000u64.saturating_sub(drift as u64);
    let whole = d / 1_000_000;
    let rest = d % 1_000_000;
    whole * rate + rest * rate / 1_000_000
}

// The most that passes.
fn most_passed(drift: u32, d: u64) -> u64
    ensures { result ≡ min last (most_passed drift d) }
{
    let off = drift as u64;
    let rest = d % 1_000_000;
    let whole = (d / 1_000_000).saturating_mul(off);
    let more = (rest * off + 999_999) / 1_000_000;
    d.saturating_add(whole).saturating_add(more)
}

// A low end, once the host's own clock has gone on by d.
#[tactic(auto, unfolding(crate::specs::Drift::low_later))]
pub fn low_later(drift: u32, low: u64, d: u64) -> u64
    ensures { result ≡ low_later drift low d }
{
    low.saturating_add(least_passed(drift, d))
}

// A high end.
#[tactic(auto, unfolding(crate::specs::Drift::high_later))]
pub fn high_later(drift: u32, high: u64, d: u64) -> u64
    ensures { result ≡ high_later drift high d }
{
    high.saturating_add(most_passed(drift, d))
}
