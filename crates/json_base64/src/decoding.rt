// The bytes that a string stands for, written out.
ghost use Rattle.std.specs.Prelude.{◌≡◌, ◌+◌, ◌*◌, ◌≤◌, length, true};
ghost use Rattle.json_strings.specs.Text.{content_at};
ghost use Rattle.base64_strict.specs.Decode.{decode64};
ghost use Rattle.laws.specs.Pasted.{fronted};
ghost use Rattle.json_base64.specs.Sized.{good, plain, Lettered, Tripled, Begun};

use super::Quad;
use super::groups::quad_of;
use super::letters::groups;
use super::sizing::size_of;
use base64_strict::Group;
use octets::put;

// The bytes of the four letters at a place, from index n of out on.
fn put_three(s: &[u8], k: usize, out: &mut [u8], n: usize)
    requires { Lettered s.now k 1 × (n + 3 ≤ length out.old) }
    ensures { Tripled s.now k out.old n out.new }
{
    let (x, y, z) = base64_strict::three_of(s[k], s[k + 1], s[k + 2], s[k + 3]);
    put(out, n, &[x, y, z]);
}

// The bytes of so many groups of four letters at a place, at the front of out, where those of the whole string fit.
fn put_groups(s: &[u8], at: usize, groups: usize, out: &mut [u8])
    requires { Lettered s.now at groups
        × ((good (decode64 (content_at s.now at)) ≡ true)
        × (length (plain (decode64 (content_at s.now at))) ≤ length out.old)) }
    ensures { Begun (plain (decode64 (content_at s.now at))) s.now (at + 4 * groups) out.old
        (3 * groups) out.new }
{
    // for over places: i counts by fours in the text, and by threes in out.
    for i in 0..groups {
        put_three(s, at + 4 * i, out, 3 * i);
    }
}

// The bytes that the string whose characters start at a place stands for, at the front of out: the string is base64.
pub fn fill(s: &[u8], at: usize, out: &mut [u8])
    requires { (good (decode64 (content_at s.now at)) ≡ true)
        × (length (plain (decode64 (content_at s.now at))) ≤ length out.old) }
    ensures { out.new ≡ fronted (plain (decode64 (content_at s.now at))) out.old }
{
    let quick = groups(s, at);
    put_groups(s, at, quick, out);
    let mut k = at + 4 * quick;
    let mut n = 3 * quick;
    while let Some(quad) = quad_of(s, k) {
        let Quad::Four(group, j) = quad else {
            return;
        };
        match group {
            Group::Three(x, y, z) => {
                put(out, n, &[x, y, z]);
                k = j;
                n += 3;
            }
            Group::Two(x, y) => {
                put(out, n, &[x, y]);
                return;
            }
            Group::One(x) => {
                put(out, n, &[x]);
                return;
            }
        }
    }
}

// The same of any string: nothing is written where it is no base64. It is a helper: its callers have tested that there
// is room. As `put_text` of json_text, for another reading of strings: one function over both would be handed its two
// calls, and what each says, for one `if`.
pub fn decode(s: &[u8], at: usize, out: &mut [u8])
    requires { length (plain (decode64 (content_at s.now at))) ≤ length out.old }
    ensures { out.new ≡ fronted (plain (decode64 (content_at s.now at))) out.old }
{
    if size_of(s, at).is_some() {
        fill(s, at, out);
    }
}
