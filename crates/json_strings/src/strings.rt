// Strings (RFC 8259, section 7).
ghost use Rattle.std.specs.Prelude.{◌≡◌, ◌+◌, ◌≤◌, ◌<◌, length, drop};
ghost use Rattle.json_tokens.specs.Scan.{past_while};
ghost use Rattle.json_tokens.specs.Walk.{walked};
ghost use Rattle.json_strings.specs.Text.{unescaped, unit_at, unit_step, string_at, content_at, same_list, Alike};
ghost use Rattle.json_strings.specs.Text.{told, Lettered};

use super::escapes::escape;
use super::letters::wide;
use super::unescaped::{is_unescaped, unescaped_run};
use super::wides::wide_run;
use super::{Extent, Unit};
use json_tokens::{Step, byte};

// What stands at a place within a string.
pub fn unit_of(s: &[u8], at: usize) -> Unit
    ensures { result ≡ unit_at s.now at }
{
    let b = byte(s, at);
    if b == b'"' {
        return Unit::Close(at + 1);
    }
    if b == b'\\' {
        return escape(s, at + 1);
    }
    if b < 0x20 {
        return Unit::Ill;
    }
    if b < 0x80 {
        Unit::Code(b as u32, at + 1)
    } else {
        wide(s, at)
    }
}

// One turn of a string.
fn unit_step(s: &[u8], at: usize) -> Step
    ensures { result ≡ unit_step s.now at }
{
    match unit_of(s, at) {
        Unit::Code(_, k) => Step::More(k),
        Unit::Close(k) => Step::End(k),
        Unit::Ill => Step::Wrong,
    }
}

// Where to go on after the character from k to n: past the run that it begins, of characters of one byte or of others.
fn onward(s: &[u8], k: usize, n: usize) -> usize
    requires { k < n }
    ensures { (walked (length s.now) (unit_step s.now) result
        ≡ walked (length s.now) (unit_step s.now) n)
        × (n ≤ result) }
{
    if n - k == 1 {
        unescaped_run(s, n)
    } else {
        wide_run(s, n)
    }
}

// The run of characters at a place that stand for themselves, for `string` and `measured`. A function that lends its slice
// to one that is not inlined copies both halves of it at once, and waits where they have just been written apart. This
// one is inlined, so that the copy is its own.
fn run_from(s: &[u8], at: usize) -> usize
    ensures { result ≡ past_while unescaped s.now at }
{
    unescaped_run(s, at)
}

// The end of the string whose characters start at a place, and how many they are beside n that stand before it.
fn counted(s: &[u8], at: usize, n: usize) -> Extent
    requires { n ≤ at }
    ensures at_value { walked (length s.now) (unit_step s.now) at ≡ told result.past }
    ensures at_value_2 { n + length (content_at s.now at) ≡ result.letters }
{
    let mut k = at;
    let mut letters = n;
    // loop: what ends the string is a unit too, and says whether there is a place past it.
    loop {
        match unit_of(s, k) {
            Unit::Code(_, j) => {
                k = j;
                letters += 1;
            }
            Unit::Close(e) => {
                return Extent { past: e, letters };
            }
            Unit::Ill => {
                return Extent { past: 0, letters };
            }
        }
    }
}

// A string, at its opening quote, with how many characters it has: what a name is told by. Each is looked at once.
pub fn measured(s: &[u8], at: usize) -> Extent
    ensures at_value { string_at s.now at ≡ told result.past }
    ensures lettered { Lettered s.now at result.letters }
{
    let b = byte(s, at);
    if b != b'"' {
        return Extent {
            past: 0,
            letters: 0,
        };
    }
    let k = run_from(s, at + 1);
    if byte(s, k) == b'"' {
        return Extent {
            past: k + 1,
            letters: k - at - 1,
        };
    }
    counted(s, k, k - at - 1)
}

// A string, at its opening quote.
pub fn string(s: &[u8], at: usize) -> Option<usize>
    ensures { result ≡ string_at s.now at }
{
    let b = byte(s, at);
    if b != b'"' {
        return None;
    }
    let mut k = run_from(s, at + 1);
    if byte(s, k) == b'"' {
        return Some(k + 1);
    }
    // loop: the turn that ends the string is the one that says where.
    loop {
        match unit_step(s, k) {
            Step::More(n) => {
                k = onward(s, k, n);
            }
            Step::End(e) => {
                return Some(e);
            }
            Step::Wrong => {
                return None;
            }
        }
    }
}

// Past the bytes at a place that stand for themselves and are those of the word. One that stands there is another. The
// library's `starts_with` does not say how far the two are alike.
fn alike(s: &[u8], at: usize, w: &[u8]) -> usize
    ensures { Alike s.now at w.now result }
{
    let mut k = at;
    for x in w {
        let b = byte(s, k);
        if b != *x {
            return k;
        }
        if !is_unescaped(b) {
            return k;
        }
        k += 1;
    }
    k
}

// The string whose characters start at a place holds the word from an index on, unescaped.
fn holds_rest(s: &[u8], at: usize, w: &[u8], from: usize) -> bool
    ensures { result ≡ same_list (content_at s.now at) (drop from w.now) }
{
    let mut k = at;
    let mut i = from;
    while let Unit::Code(c, j) = unit_of(s, k) {
        if w.len() <= i {
            return false;
        }
        if c != u32::from(w[i]) {
            return false;
        }
        k = j;
        i += 1;
    }
    w.len() <= i
}

// The string whose characters start at a place holds the word, unescaped. That it ends, or goes on otherwise, is mostly
// seen by one byte.
pub fn holds(s: &[u8], at: usize, w: &[u8]) -> bool
    ensures { result ≡ same_list (content_at s.now at) w.now }
{
    let k = alike(s, at, w);
    let b = byte(s, k);
    if b == b'"' {
        return w.len() <= k - at;
    }
    if is_unescaped(b) {
        return false;
    }
    holds_rest(s, k, w, k - at)
}
