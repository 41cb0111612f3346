// How many bytes a string stands for.
ghost use Rattle.std.specs.Prelude.{◌≡◌, ◌+◌};
ghost use Rattle.json_strings.specs.Text.{content_at};
ghost use Rattle.base64_strict.specs.Decode.{decode64};
ghost use Rattle.json_base64.specs.Sized.{size_of};

use super::Quad;
use super::groups::{at_end, quad_of};
use super::letters::groups;
use base64_strict::Group;

// How many bytes the string whose characters start at a place stands for.
pub fn size_of(s: &[u8], at: usize) -> Option<usize>
    ensures { result ≡ size_of 0 (decode64 (content_at s.now at)) }
{
    let quick = groups(s, at);
    let mut k = at + 4 * quick;
    let mut n = 3 * quick;
    while let Quad::Four(group, j) = quad_of(s, k)? {
        match group {
            Group::Three(_, _, _) => {
                k = j;
                n += 3;
            }
            Group::Two(_, _) => {
                return at_end(s, j).then_some(n + 2);
            }
            Group::One(_) => {
                return at_end(s, j).then_some(n + 1);
            }
        }
    }
    Some(n)
}
