// Elements by their places.
ghost use Rattle.std.specs.Prelude.{◌≡◌, ◌≤◌, ◌<◌, length, take};
ghost use Rattle.report_read.specs.Entry.{elements_of, list_of};
ghost use Rattle.list_read.specs.Server.{places_in};
ghost use Rattle.list_parts.specs.Facts.{item_in};

use json_values::Found;
use list_read::{Survey, array_place, first_item, next_item};

// Of the servers that can be asked the i-th, by the place of its object.
pub fn server_place(y: Survey, i: usize) -> Option<usize>
    requires { (y.asked ≤ 64) × (y.asked ≤ length y.places) }
    ensures { result ≡ item_in (take y.asked y.places) i }
{
    if y.asked <= i {
        return None;
    }
    Some(y.places[i])
}

// The j-th element of the list at a place.
fn item_of(s: &[u8], v: usize, depth: usize, j: usize) -> Option<usize>
    requires { v < length s.now }
    ensures { result ≡ item_in (elements_of s.now depth v) j }
{
    let mut at = first_item(s, v, depth);
    let mut n = j;
    // while: the library's `successors` finds the next element before it gives one, and so would walk over this one.
    while let Some(k) = at {
        if n == 0 {
            return Some(k);
        }
        n -= 1;
        at = next_item(s, k, depth);
    }
    None
}

// The j-th element of a member that is a list.
pub fn member_item(s: &[u8], f: Found, depth: usize, j: usize) -> Option<usize>
    ensures { result ≡ item_in (places_in s.now depth (list_of s.now f)) j }
{
    let v = array_place(s, f)?;
    item_of(s, v, depth, j)
}
