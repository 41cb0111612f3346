// The state: start, and take window after window. Any state at all may come in.
ghost use Rattle.std.specs.Prelude.{◌≡◌, [], ◌+◌, max, ltb};
ghost use Rattle.pile_tally.specs.Kept.{tally_of, tallied_of, AsItGoes};

use super::{Tallied, Tally};
use check_response::low_end;

// The state before any window. That it is 0 and says "none so far" as well as "none above 0" loses nothing, since no
// MIDP + RADI is below 0.
pub fn start() -> Tally
    ensures { result ≡ tally_of [] }
{
    Tally { most: 0 }
}

// One window more, told by its MIDP and RADI.
pub fn take_window(tally: Tally, midp: u64, radi: u32) -> Tallied
    ensures as_it_goes { AsItGoes tally midp radi result }
    ensures value { result ≡ tallied_of tally midp radi }
{
    let radius = radi as u64;
    let most = tally.most;
    let earlier = ends_below(midp, radius, most);
    let low = low_end(midp, radius);
    let kept = most.max(low);
    Tallied {
        tally: Tally { most: kept },
        contradicts: earlier,
    }
}

// Whether MIDP + RADI is below most. RADI is compared with the difference of the other two, since the sum may lie above
// 2^64 - 1.
fn ends_below(midp: u64, radi: u64, most: u64) -> bool
    ensures { result ≡ ltb (midp + radi) most }
{
    if most <= midp {
        return false;
    }
    radi < most - midp
}
