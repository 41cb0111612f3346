// How long a packet must be that is answered.
ghost use Rattle.std.specs.Prelude.{◌≡◌, ◌+◌, ◌*◌, ◌^◌, ◌≤◌, ◌<◌, length};
ghost use Rattle.laws.specs.Least.{least};
ghost use Rattle.tree.specs.Tree.{depth_of};
ghost use Rattle.tree_build.specs.Leaves.{most};
ghost use Rattle.server_batch.specs.Picking.{how_many};
ghost use Rattle.server_batch.specs.Steps.{stay_at, enough_in};

use super::choosing::stays;
use tree_build::depth;

// How many bytes an answer has with a path of d siblings and a CERT of c bytes.
pub fn answer_length(d: u32, c: usize) -> usize
    requires { 264 + 32 * d + c < 2 ^ 64 }
    ensures { result ≡ 264 + 32 * d + c }
{
    264 + 32 * d as usize + c
}

// How many packets are answered, where an answer may have as many bytes as `size`.
fn count_long(lengths: &[u32], marks: &[u32], size: usize) -> usize
    requires { length lengths.now ≤ length marks.now }
    ensures { result ≡ how_many (stay_at marks.now lengths.now size) (length lengths.now) }
{
    let mut k: usize = 0;
    // By index: as `filter` and `count` over a `zip` of both slices the proof does not close.
    for i in 0..lengths.len() {
        k += usize::from(stays(marks[i], lengths[i] as usize, size));
    }
    k
}

// Whether d siblings are enough, where CERT has c bytes.
fn enough_with(lengths: &[u32], marks: &[u32], c: usize, d: u32) -> bool
    requires { (length lengths.now ≤ most) × (length lengths.now ≤ length marks.now) × (264 + 32 * d + c < 2 ^ 64) }
    ensures { result ≡ enough_in marks.now lengths.now c d }
{
    let k = count_long(lengths, marks, answer_length(d, c));
    k == 0 || depth(k) <= d
}

// The least number of siblings that is enough.
fn siblings(lengths: &[u32], marks: &[u32], c: usize) -> u32
    requires { (0 < length lengths.now)
        × (length lengths.now ≤ most)
        × (length lengths.now ≤ length marks.now)
        × (264 + 32 * depth_of (length lengths.now) + c < 2 ^ 64) }
    ensures { result ≡ least (enough_in marks.now lengths.now c) (depth_of (length lengths.now)) }
{
    let last = depth(lengths.len());
    (0..last)
        .find(|d| enough_with(lengths, marks, c, *d))
        .unwrap_or(last)
}

// How many bytes a packet must have that is answered.
pub fn shortest(lengths: &[u32], marks: &[u32], c: usize) -> usize
    requires { (0 < length lengths.now)
        × (length lengths.now ≤ most)
        × (length lengths.now ≤ length marks.now)
        × (264 + 32 * depth_of (length lengths.now) + c < 2 ^ 64) }
    ensures { result
        ≡ 264
        + 32 * least (enough_in marks.now lengths.now c) (depth_of (length lengths.now))
        + c }
{
    answer_length(siblings(lengths, marks, c), c)
}
