// Letters that are written as they are, of which a string of base64 mostly is: four are looked at together.
ghost use Rattle.std.specs.Prelude.{◌≡◌, true};
ghost use Rattle.json_base64.specs.Sized.{Lettered};

use base64_strict::is_letter;

// Whether the four bytes at a place are letters.
pub fn four(s: &[u8], at: usize) -> bool
    ensures { result ≡ true → Lettered s.now at 1 }
{
    if s.len() < 4 {
        return false;
    }
    if s.len() - 4 < at {
        return false;
    }
    is_letter(s[at]) & is_letter(s[at + 1]) & is_letter(s[at + 2]) & is_letter(s[at + 3])
}

// How many groups of four letters there are from a place on, as far as they come.
pub fn groups(s: &[u8], at: usize) -> usize
    ensures { Lettered s.now at result }
{
    let mut k = at;
    let mut n = 0;
    // while: it ends with the letters, of which no range tells how many there are.
    while four(s, k) {
        k += 4;
        n += 1;
    }
    n
}
