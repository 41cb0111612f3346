// Pieces of text, put into a buffer one behind the other. Each function answers the index at which its piece ends.
// No `write!`: the library says what it leaves of a String, which is on the heap, and of no other writer.
ghost use Rattle.std.specs.Prelude.{◌+◌, ◌≤◌, length};
ghost use Rattle.laws.specs.Written.{Puts};
ghost use Rattle.console_lines.specs.Line.{decimal, spaced};

use octets::put;

// A word.
pub fn put_word(out: &mut [u8], at: usize, word: &[u8]) -> usize
    requires { at + length word.now ≤ length out.old }
    ensures { Puts out.old at word.now out.new result }
{
    put(out, at, word);
    at + word.len()
}

// A number in decimal.
pub fn put_number(out: &mut [u8], at: usize, x: u64) -> usize
    requires { at + 20 ≤ length out.old }
    ensures puts { Puts out.old at (decimal x) out.new result }
    ensures upper_bound { result ≤ at + 20 }
{
    let mut text = [0u8; 20];
    let n = io::decimal(x, &mut text);
    put_word(out, at, &text[..n])
}

// A number behind a space.
pub fn put_spaced(out: &mut [u8], at: usize, x: u64) -> usize
    requires { at + 21 ≤ length out.old }
    ensures puts { Puts out.old at (spaced x) out.new result }
    ensures upper_bound { result ≤ at + 21 }
{
    let digits = put_word(out, at, b" ");
    put_number(out, digits, x)
}
