// Letters of the alphabet with no branch, since no processor guesses which letter is next: nearly every group of a text
// is four of them.
ghost use Rattle.std.specs.Prelude.{◌≡◌, true, ◌<◌, Some};
ghost use Rattle.base64_strict.specs.Alphabet.{sextet_of, is_letter};
ghost use Rattle.base64_strict.specs.declared.Group.TheVariants.{Three};
ghost use Rattle.base64_strict.specs.Decode.{group_of};

use super::decoding::three;

// Whether a byte is a letter.
pub fn is_letter(b: u8) -> bool
    ensures { result ≡ is_letter b }
{
    (b == b'+')
        | (b == b'/')
        | ((b'0' <= b) & (b <= b'9'))
        | ((b'A' <= b) & (b <= b'Z'))
        | ((b'a' <= b) & (b <= b'z'))
}

// The number of a letter. Each range of letters has its distance to its numbers, and what is subtracted is added up to
// 256. By sums, with no `match` on the ranges: that would branch.
fn number(b: u8) -> u8
    requires { is_letter b ≡ true }
    ensures { (result ≡ sextet_of b) × (result < 64) }
{
    let low = u32::from(b < b'0');
    let slash = u32::from(b == b'/');
    let capital = u32::from(b'A' <= b);
    let small = u32::from(b'a' <= b);
    let n = b as u32 + 4 + 15 * low + 253 * slash + 187 * capital + 250 * small;
    (n % 256) as u8
}

// The three bytes that four letters stand for.
pub fn three_of(a: u8, b: u8, c: u8, d: u8) -> (u8, u8, u8)
    requires { (is_letter a ≡ true) × ((is_letter b ≡ true) × ((is_letter c ≡ true) × (is_letter d ≡ true))) }
    ensures { Some (Three result.0 result.1 result.2) ≡ group_of a b c d }
{
    three(number(a), number(b), number(c), number(d))
}
