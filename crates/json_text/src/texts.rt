// The text of a string: its size, and its octets written out.
ghost use Rattle.std.specs.Prelude.{◌≡◌, true, ◌≤◌, length};
ghost use Rattle.laws.specs.Pasted.{fronted};
ghost use Rattle.json_strings.specs.Text.{content_at};
ghost use Rattle.json_text.specs.Octets.{text_of, plain, size_of};
ghost use Rattle.json_text.specs.Facts.{good};

use super::Letter;
use super::characters::letter_at;
use super::utf8::{put_letter, size};

// How many octets the text of the string has whose characters start at a place.
pub fn text_size(s: &[u8], at: usize) -> Option<usize>
    ensures { result ≡ size_of 0 (text_of (content_at s.now at)) }
{
    let mut k = at;
    let mut n = 0;
    // loop: what ends the string says whether it is a text.
    loop {
        match letter_at(s, k) {
            Letter::Is(c, j) => {
                n += size(c);
                k = j;
            }
            Letter::Stop => {
                return Some(n);
            }
            Letter::Lone => {
                return None;
            }
        }
    }
}

// The octets of the string's text at the front of out: it is a text.
pub fn fill(s: &[u8], at: usize, out: &mut [u8])
    requires { (good (text_of (content_at s.now at)) ≡ true)
        × (length (plain (text_of (content_at s.now at))) ≤ length out.old) }
    ensures { out.new ≡ fronted (plain (text_of (content_at s.now at))) out.old }
{
    let mut k = at;
    let mut n = 0;
    while let Letter::Is(c, j) = letter_at(s, k) {
        put_letter(c, out, n);
        n += size(c);
        k = j;
    }
}

// The same of any string: nothing is written where it is no text. It is a helper: its callers have tested that there is
// room. As `decode` of json_base64, for another reading of strings, which says why there are two.
pub fn put_text(s: &[u8], at: usize, out: &mut [u8])
    requires { length (plain (text_of (content_at s.now at))) ≤ length out.old }
    ensures { out.new ≡ fronted (plain (text_of (content_at s.now at))) out.old }
{
    if text_size(s, at).is_some() {
        fill(s, at, out);
    }
}
