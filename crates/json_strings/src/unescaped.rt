// Runs of characters that stand for themselves (RFC 8259, section 7: unescaped): most of a text is such.
ghost use Rattle.std.specs.Prelude.{◌≡◌, true, ◌+◌, ◌≤◌, length};
ghost use Rattle.json_tokens.specs.Scan.{Passes, past_while};
ghost use Rattle.json_strings.specs.Text.{unescaped};

use json_tokens::{byte, past_while};

// A character that stands for itself, and is one byte.
pub fn is_unescaped(b: u8) -> bool
    ensures { result ≡ unescaped b }
{
    (b != b'"') & (b != b'\\') & !(b < 0x20) & (b < 0x80)
}

// Whether the 64 bytes at a place are such. All are counted, with no way out at the first that is none, so that the
// compiler can look at many at once.
fn stretch(s: &[u8], at: usize) -> bool
    requires { at + 64 ≤ length s.now }
    ensures { result ≡ true → Passes unescaped s.now at 64 }
{
    let mut n: u8 = 0;
    for b in &s[at..at + 64] {
        n += u8::from(is_unescaped(*b));
    }
    n == 64
}

// Past such characters, one by one.
fn singly(s: &[u8], at: usize) -> usize
    ensures { result ≡ past_while unescaped s.now at }
{
    past_while(s, at, is_unescaped)
}

// The same, many at a time.
fn in_stretches(s: &[u8], at: usize) -> usize
    ensures { result ≡ past_while unescaped s.now at }
{
    if s.len() < 64 {
        return singly(s, at);
    }
    let last = s.len() - 64;
    let mut k = at;
    // while: it goes on by stretches as long as they pass, and no range says where one does not.
    while k <= last {
        if !stretch(s, k) {
            return singly(s, k);
        }
        k += 64;
    }
    singly(s, k)
}

// Past the characters at a place that stand for themselves. The first sixteen are taken one by one, as names are short.
pub fn unescaped_run(s: &[u8], at: usize) -> usize
    ensures { result ≡ past_while unescaped s.now at }
{
    let mut k = at;
    // for over a count: the text may end before the sixteenth, so that there may be no slice of them.
    for _ in 0..16 {
        if !is_unescaped(byte(s, k)) {
            return k;
        }
        k += 1;
    }
    in_stretches(s, k)
}
