// Tests on bytes.
#![tactic(auto, unfolding(crate::specs::Chars::hex_digit, crate::specs::Chars::letter, crate::specs::Chars::label_char, crate::specs::Chars::url_char, laws::specs::Pick::either, laws::specs::Pick::both))]

ghost use Rattle.std.specs.Prelude.{◌≡◌};
ghost use Rattle.json_tokens.specs.Scan.{digit};
ghost use Rattle.list_address.specs.Chars.{hex_digit, label_char, url_char};

// The library's test under a name of its own: `is_run` takes tests of bytes by value, and the library's is of a reference.
pub fn is_digit(b: u8) -> bool
    ensures { result ≡ digit b }
{
    b.is_ascii_digit()
}

pub fn is_hex(b: u8) -> bool
    ensures { result ≡ hex_digit b }
{
    matches!(b, b'0'..=b'9' | b'a'..=b'f' | b'A'..=b'F')
}

pub fn is_label_char(b: u8) -> bool
    ensures { result ≡ label_char b }
{
    matches!(b, b'0'..=b'9' | b'a'..=b'z' | b'A'..=b'Z' | b'-')
}

pub fn is_url_char(b: u8) -> bool
    ensures { result ≡ url_char b }
{
    is_label_char(b) || b"._~!$&'()*+,;=:@/?".contains(&b)
}
