// Strings as texts: names, addresses and URLs.
ghost use Rattle.std.specs.Prelude.{◌≡◌};
ghost use Rattle.json_strings.specs.Text.{content_at};
ghost use Rattle.json_text.specs.Octets.{text_of};
ghost use Rattle.list_read.specs.Server.{is_some, passes, text_by};
ghost use Rattle.list_read.specs.Facts.{of_sort};

use super::values::string_place;
use super::{LONGEST, Sort};
use json_strings::unescaped_run;
use json_text::{fill, is_unicode, text_size};
use json_tokens::byte;
use json_values::Found;
use list_address::{is_address, is_https};

// A member is a string of Unicode characters.
pub fn has_text(s: &[u8], f: Found) -> bool
    ensures { result ≡ is_some (text_by s.now f) }
{
    let Some(p) = string_place(s, f) else {
        return false;
    };
    is_unicode(s, p)
}

// The text is one of that sort.
fn is_of(x: &[u8], sort: Sort) -> bool
    ensures { result ≡ of_sort sort x.now }
{
    match sort {
        Sort::Place => is_address(x),
        Sort::Url => is_https(x),
    }
}

// The same of a string's text, which is written out first.
fn is_written(s: &[u8], p: usize, sort: Sort) -> bool
    ensures { result ≡ passes (of_sort sort) (text_of (content_at s.now p)) }
{
    let Some(n) = text_size(s, p) else {
        return false;
    };
    if LONGEST < n {
        return false;
    }
    let mut text = [0u8; LONGEST];
    fill(s, p, &mut text);
    is_of(&text[0..n], sort)
}

// The same: where the string is ASCII without escapes, as most are, it is looked at where it stands.
fn is_there(s: &[u8], p: usize, sort: Sort) -> bool
    ensures { result ≡ passes (of_sort sort) (text_of (content_at s.now p)) }
{
    let e = unescaped_run(s, p);
    let b = byte(s, e);
    if b != b'"' {
        return is_written(s, p, sort);
    }
    if LONGEST < e - p {
        return false;
    }
    is_of(&s[p..e], sort)
}

// A member is a string of that sort.
pub fn is_sort(s: &[u8], f: Found, sort: Sort) -> bool
    ensures { result ≡ passes (of_sort sort) (text_by s.now f) }
{
    let Some(p) = string_place(s, f) else {
        return false;
    };
    is_there(s, p, sort)
}
