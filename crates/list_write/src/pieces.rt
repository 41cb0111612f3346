// Pieces of a text, put one behind the other. Each function answers the index at which its piece ends.
ghost use Rattle.std.specs.Prelude.{[], ◌∷◌, ◌≡◌, ◌+◌, ◌≤◌, length};
ghost use Rattle.base64_strict.specs.Encode.{encode64};
ghost use Rattle.laws.specs.Written.{Puts};
ghost use Rattle.list_write.specs.Decimal.{decimal};

use super::decimal::digits_of;
use base64_strict::encode;
use octets::put;

// A word. Beside what `octets` puts, it answers where the word ends.
pub fn put_word(out: &mut [u8], at: usize, w: &[u8]) -> usize
    requires { at + length w.now ≤ length out.old }
    ensures { Puts out.old at w.now out.new result }
{
    put(out, at, w);
    at + w.len()
}

// A byte.
pub fn put_byte(out: &mut [u8], at: usize, b: u8) -> usize
    requires { at + 1 ≤ length out.old }
    ensures { Puts out.old at (b ∷ []) out.new result }
{
    out[at] = b;
    at + 1
}

// A number in decimal. The library's `Display` would need a writer over the buffer; this is one word.
pub fn put_decimal(out: &mut [u8], at: usize, x: u32) -> usize
    requires { at + length (decimal x) ≤ length out.old }
    ensures { Puts out.old at (decimal x) out.new result }
{
    let d = digits_of(x);
    let text = d.text;
    let from = d.from;
    put_word(out, at, &text[from..])
}

// Bytes in base64. `report_write` has the same: `base64_strict`, from which both take `encode`, puts nothing at an index.
pub fn put_code(out: &mut [u8], at: usize, s: &[u8]) -> usize
    requires { at + length (encode64 s.now) ≤ length out.old }
    ensures { Puts out.old at (encode64 s.now) out.new result }
{
    let n = (s.len() + 2) / 3 * 4;
    encode(s, &mut out[at..at + n]);
    at + n
}
