// The alphabet: RFC 4648, table 1. Letters are read by tests, since a table is copied wherever it is named. `encode`
// names it once and lends it.
ghost use Rattle.std.specs.Prelude.{◌≡◌, ◌<◌};
ghost use Rattle.base64_strict.specs.Alphabet.{letters, letter_of, number_of};

// The letter of a number.
pub fn letter(alphabet: &[u8], n: u8) -> u8
    requires { (alphabet.now ≡ letters) × (n < 64) }
    ensures { result ≡ letter_of n }
{
    alphabet[n as usize]
}

// The number of a letter. A character is any number, and a letter is one of ASCII.
pub fn sextet(c: u32) -> Option<u8>
    ensures { result ≡ number_of c }
{
    match u8::try_from(c).ok()? {
        b @ b'A'..=b'Z' => Some(b - b'A'),
        b @ b'a'..=b'z' => Some(b - b'a' + 26),
        b @ b'0'..=b'9' => Some(b - b'0' + 52),
        b'+' => Some(62),
        b'/' => Some(63),
        _ => None,
    }
}
