// The elements of a list, one after the other.
ghost use Rattle.std.specs.Prelude.{◌≡◌, ◌+◌, ◌<◌, length};
ghost use Rattle.list_read.specs.Facts.{past_item, Opens, Turns};

use json_tokens::{Step, after_item, blanks, byte};
use json_values::item;

// The first element of the list at a place, or that it has none; its elements nest at most so deep.
pub fn first_item(s: &[u8], v: usize, depth: usize) -> Option<usize>
    requires { v < length s.now }
    ensures { Opens s.now depth v result }
{
    let start = blanks(s, v + 1);
    let b = byte(s, start);
    if b == b']' { None } else { Some(start) }
}

// The element behind one that ends at a place, or that it is the last.
pub fn next_past(s: &[u8], end: Option<usize>) -> Option<usize>
    ensures { result ≡ past_item s.now end }
{
    let Some(e) = end else {
        return None;
    };
    match after_item(s, e, b']') {
        Step::More(j) => Some(j),
        Step::End(_) => None,
        Step::Wrong => None,
    }
}

// The element behind the one at a place, or that it is the last.
pub fn next_item(s: &[u8], k: usize, depth: usize) -> Option<usize>
    ensures { Turns s.now depth k result }
{
    match item(s, k, depth) {
        Step::More(j) => Some(j),
        Step::End(_) => None,
        Step::Wrong => None,
    }
}
