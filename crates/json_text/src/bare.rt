// Strings without escapes. UTF-8 has no surrogates, so that each of them is a text.
ghost use Rattle.std.specs.Prelude.{◌≡◌};
ghost use Rattle.json_tokens.specs.Scan.{past_while};
ghost use Rattle.json_strings.specs.Text.{content_at};
ghost use Rattle.json_text.specs.Octets.{text_of};
ghost use Rattle.json_text.specs.Facts.{good, bare};

use super::texts::text_size;
use json_tokens::{byte, past_while};

// Neither a quote nor a backslash.
fn is_bare(b: u8) -> bool
    ensures { result ≡ bare b }
{
    (b != b'"') & (b != b'\\')
}

// Past such bytes.
fn past_bare(s: &[u8], at: usize) -> usize
    ensures { result ≡ past_while bare s.now at }
{
    past_while(s, at, is_bare)
}

// Whether the string whose characters start at a place is a text. Where no backslash stands before the first quote, no
// character is read.
pub fn is_unicode(s: &[u8], at: usize) -> bool
    ensures { result ≡ good (text_of (content_at s.now at)) }
{
    let b = byte(s, past_bare(s, at));
    if b != b'\\' {
        return true;
    }
    text_size(s, at).is_some()
}
