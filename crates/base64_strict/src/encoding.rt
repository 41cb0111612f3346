// Bytes written as base64.
ghost use Rattle.std.specs.Prelude.{◌≡◌, ◌≤◌, length};
ghost use Rattle.laws.specs.Pasted.{fronted};
ghost use Rattle.base64_strict.specs.Alphabet.{letters};
ghost use Rattle.base64_strict.specs.Encode.{encode_one, encode_two, encode_three, encode64};

use super::PAD;
use super::alphabet::letter;
use octets::put;

// The letters of three bytes. Each of these asks that the table is the alphabet: a type for it would be this same slice,
// with this same fact about it.
fn encode_three(alphabet: &[u8], a: u8, b: u8, c: u8) -> [u8; 4]
    requires { alphabet.now ≡ letters }
    ensures { result ≡ encode_three a b c }
{
    let p = letter(alphabet, a / 4);
    let q = letter(alphabet, a % 4 * 16 + b / 16);
    let r = letter(alphabet, b % 16 * 4 + c / 64);
    [p, q, r, letter(alphabet, c % 64)]
}

// The same of the last two bytes.
fn encode_two(alphabet: &[u8], a: u8, b: u8) -> [u8; 4]
    requires { alphabet.now ≡ letters }
    ensures { result ≡ encode_two a b }
{
    let p = letter(alphabet, a / 4);
    let q = letter(alphabet, a % 4 * 16 + b / 16);
    [p, q, letter(alphabet, b % 16 * 4), PAD]
}

// The same of the last byte.
fn encode_one(alphabet: &[u8], a: u8) -> [u8; 4]
    requires { alphabet.now ≡ letters }
    ensures { result ≡ encode_one a }
{
    let p = letter(alphabet, a / 4);
    [p, letter(alphabet, a % 4 * 16), PAD, PAD]
}

// The bytes in base64, at the front of out. It is a helper: its callers have tested that there is room.
pub fn encode(s: &[u8], out: &mut [u8])
    requires { length (encode64 s.now) ≤ length out.old }
    ensures { out.new ≡ fronted (encode64 s.now) out.old }
{
    let alphabet = b"ABCDEFGHIJKLMNOPQRSTUVWXYZabcdefghijklmnopqrstuvwxyz0123456789+/";
    let mut rest = s;
    let mut at = 0;
    // while let: the pattern names the three bytes, and leaves the last group to the match.
    while let [a, b, c, tail @ ..] = rest {
        let four = encode_three(alphabet, *a, *b, *c);
        put(out, at, &four);
        rest = tail;
        at += 4;
    }
    match rest {
        [] => {}
        [a] => {
            let four = encode_one(alphabet, *a);
            put(out, at, &four);
        }
        [a, b, ..] => {
            let four = encode_two(alphabet, *a, *b);
            put(out, at, &four);
        }
    }
}
