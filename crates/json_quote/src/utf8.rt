// Whether octets are UTF-8 (RFC 3629, section 4).
ghost use Rattle.std.specs.Prelude.{◌≡◌};
ghost use Rattle.json_quote.specs.Utf8.{char_step, is_utf8};

use json_strings::{Unit, unit_of};
use json_tokens::Step;

// One character, or the end.
fn char_step(x: &[u8], at: usize) -> Step
    ensures { result ≡ char_step x.now at }
{
    if x.len() <= at {
        return Step::End(at);
    }
    if x[at] < 0x80 {
        return Step::More(at + 1);
    }
    match unit_of(x, at) {
        Unit::Code(_, k) => Step::More(k),
        Unit::Close(k) => Step::End(k),
        Unit::Ill => Step::Wrong,
    }
}

// Whether x is the UTF-8 of a text. By the reader's own characters, and not by the library's `from_utf8`: that what is
// quoted is read again is proved of these.
pub fn is_utf8(x: &[u8]) -> bool
    ensures { result ≡ is_utf8 x.now }
{
    let mut k = 0;
    // loop: the step that ends it says whether all is well.
    loop {
        match char_step(x, k) {
            Step::More(j) => {
                k = j;
            }
            Step::End(_) => {
                return true;
            }
            Step::Wrong => {
                return false;
            }
        }
    }
}
