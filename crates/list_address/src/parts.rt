// Parts between dots or colons.
ghost use Rattle.std.specs.Prelude.{◌≡◌, ℕ, Bool, List};
ghost use Rattle.std.specs.Fn.{FnReturnsAt};
ghost use Rattle.list_address.specs.Host.{is_group, is_label};
ghost use Rattle.list_address.specs.Facts.{Lined, TellsAt, parted};

use super::chars::{is_hex, is_label_char};
use super::scan::is_run;

#[tactic(auto, unfolding(crate::specs::Host::is_group))]
pub fn is_group(s: &[u8]) -> bool
    ensures { result ≡ is_group s.now }
{
    is_run(s, 4, is_hex)
}

#[tactic(auto, unfolding(crate::specs::Host::is_label, laws::specs::Pick::both))]
pub fn is_label(s: &[u8]) -> bool
    ensures { result ≡ is_label s.now }
{
    is_run(s, 63, is_label_char) && !matches!(s, [b'-', ..] | [.., b'-'])
}

// How many parts stand between the bytes `between` before the last part, and the last by itself; or that one before
// the last does not pass.
pub fn line<F: Fn(&[u8]) -> bool>(s: &[u8], between: u8, passes: F) -> Option<(usize, &[u8])>
    requires { F.IsAlwaysCallable passes }
    ensures { (p : List ℕ → Bool) → TellsAt (FnReturnsAt F.Fn passes) p → Lined p between s.now (parted result) }
{
    let mut n = 0;
    let mut rest = s;
    // while: `split` would give the last part as one of the others, and it is not to pass the same test.
    while let Some(k) = rest.iter().position(|b| *b == between) {
        if !passes(&rest[..k]) {
            return None;
        }
        n += 1;
        rest = &rest[k + 1..];
    }
    Some((n, rest))
}
