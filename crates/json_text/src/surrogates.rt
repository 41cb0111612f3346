// Surrogates (RFC 8259, section 7).
ghost use Rattle.std.specs.Prelude.{◌≡◌, true};
ghost use Rattle.json_text.specs.Octets.{is_high, is_low, paired};

pub fn is_high(c: u32) -> bool
    ensures { result ≡ is_high c }
{
    matches!(c, 0xD800..=0xDBFF)
}

pub fn is_low(c: u32) -> bool
    ensures { result ≡ is_low c }
{
    matches!(c, 0xDC00..=0xDFFF)
}

// The character that two surrogates stand for.
pub fn pair(h: u32, l: u32) -> u32
    requires { (is_high h ≡ true) × (is_low l ≡ true) }
    ensures { result ≡ paired h l }
{
    0x10000 + (h - 0xD800) * 0x400 + (l - 0xDC00)
}
