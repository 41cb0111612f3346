// All servers of a list, counted.
ghost use Rattle.std.specs.Prelude.{◌≡◌, ◌+◌, ◌^◌, ◌<◌, length};
ghost use Rattle.report_read.specs.Entry.{elements_of};
ghost use Rattle.list_read.specs.Server.{in_servers};
ghost use Rattle.list_read.specs.Facts.{blank_tally, Counts, Tells};

use super::elements::{first_item, next_past};
use super::seeing::see;
use super::{IN_SERVERS, Seen, Tally};

// A server more. Its place is kept where there is room.
#[tactic(auto, unfolding(laws::specs::Pick::either, laws::specs::Pick::pick, crate::specs::Facts::kept_of))]
fn counted(t: Tally, k: usize, seen: Seen) -> Tally
    requires { (t.count + 1 < 2 ^ 64) × (t.asked + 1 < 2 ^ 64) }
    ensures { Counts t k seen result }
{
    let mut u = t;
    u.count += 1;
    u.crowded = t.crowded || seen.crowded;
    if seen.asks {
        if t.asked < 64 {
            u.places[t.asked] = k;
        }
        u.asked += 1;
    }
    u
}

// Nothing is counted yet.
fn blank() -> Tally
    ensures { result ≡ blank_tally }
{
    Tally {
        count: 0,
        asked: 0,
        crowded: false,
        places: [0; 64],
    }
}

// The servers of the list at a place, if all are good.
pub fn tally(s: &[u8], v: usize) -> Option<Tally>
    requires { v < length s.now }
    ensures { Tells s.now (elements_of s.now in_servers v) result }
{
    let mut at = first_item(s, v, IN_SERVERS);
    let mut t = blank();
    // while: where the next one starts is learned from the look at this one, so that no text is walked over twice.
    while let Some(k) = at {
        let seen = see(s, k)?;
        t = counted(t, k, seen);
        at = next_past(s, seen.end);
    }
    Some(t)
}
