// The list of entries, in one walk over it.
ghost use Rattle.std.specs.Prelude.{◌≡◌, ◌||◌, ◌<◌, ltb, length};
ghost use Rattle.pile.specs.Layout.{AREA};
ghost use Rattle.report_read.specs.Ready.{ListedBy};

use super::entries::entry;
use super::{Kept, Spot};
use json_tokens::{Step, after_item, blanks, byte};
use pile::layout::AREA;

// No entries yet: 16 places, since memory is fixed.
fn blank_spots() -> [Spot; 16]
    ensures { length result ≡ 16 }
{
    let blank = Spot {
        at: 0,
        key: 0,
        rand: 0,
        request: 0,
        response: 0,
        asked: 0,
        said: 0,
    };
    [blank; 16]
}

// A packet is above 2,000 bytes.
fn is_big(e: Spot) -> bool
    ensures { result ≡ (ltb AREA e.asked || ltb AREA e.said) }
{
    (AREA < e.asked) | (AREA < e.said)
}

// The list at a place, and the place past it.
pub fn list(s: &[u8], v: usize) -> Option<(Kept, usize)>
    requires { v < length s.now }
    ensures { ListedBy s.now v result }
{
    let mut spots = blank_spots();
    let start = blanks(s, v + 1);
    if byte(s, start) == b']' {
        let kept = Kept {
            n: 0,
            big: false,
            spots,
        };
        return Some((kept, start + 1));
    }
    let mut n: usize = 0;
    let mut big = false;
    let mut k = start;
    // loop: what stands behind an element says whether another follows.
    loop {
        let Some((e, j)) = entry(s, k, n == 0) else {
            return None;
        };
        if n < 16 {
            spots[n] = e;
        }
        big = big | is_big(e);
        n += 1;
        match after_item(s, j, b']') {
            Step::More(i) => {
                k = i;
            }
            Step::End(i) => {
                return Some((Kept { n, big, spots }, i));
            }
            Step::Wrong => {
                return None;
            }
        }
    }
}
