// The way up from the leaves to the root: what is wanted of a level is written, and then the level is halved.
ghost use Rattle.std.specs.Prelude.{◌≤◌, ◌<◌, ◌^◌, length};
ghost use Rattle.tree.specs.Tree.{nodes_in};
ghost use Rattle.tree_build.specs.Leaves.{most};
ghost use Rattle.tree_build.specs.Level.{few, CanBuild, Fits, Ascends};

use super::Wanted;
use super::level::{FEW, Few, Leaves, Many, bottom, halved};
use super::part::put_part;
use super::size::width;

// The root of the tree of depth d whose leaves are the first nodes of a small level. What is wanted of it is written
// from index at of out on: siblings are those of the leaf at place j.
// `wanted` and `j` are no one value, nor out and at: j is halved and at goes on at each level, while the others stay.
fn ascend_few(
    level: Few,
    d: u32,
    wanted: Wanted,
    mut j: usize,
    out: &mut [u8],
    mut at: usize,
) -> [u8; 32]
    requires { (2 ^ d ≤ few) × Fits wanted d j at (length out.old) }
    ensures { Ascends level d wanted j out.old at out.new result }
{
    let mut row = level;
    let mut n = width(d);
    for left in (0..d).rev() {
        at = put_part(wanted, &row, n, j, out, at);
        n = n / 2;
        j = j / 2;
        let up: Few = halved(row, n);
        row = up;
    }
    row[0]
}

// The same of a large level, from the front of out on: it goes over to a small one as soon as its nodes have place
// there. It is put in its caller's place, so that a level is not copied once more to be lent.
#[inline(always)]
fn ascend_many(level: Many, mut left: u32, wanted: Wanted, mut j: usize, out: &mut [u8]) -> [u8; 32]
    requires { (few < 2 ^ left) × (2 ^ left ≤ most) × Fits wanted left j 0 (length out.old) }
    ensures { Ascends level left wanted j out.old 0 out.new result }
{
    let mut row = level;
    let mut n = width(left);
    let mut at: usize = 0;
    // loop: it ends where the level is a small one, and the way up goes on by `ascend_few`
    loop {
        at = put_part(wanted, &row, n, j, out, at);
        n = n / 2;
        j = j / 2;
        left -= 1;
        if n <= FEW {
            let next: Few = halved(row, n);
            return ascend_few(next, left, wanted, j, out, at);
        }
        let up: Many = halved(row, n);
        row = up;
    }
}

// The root of the tree over the leaves. What is wanted of it is written at the front of out: siblings are those of the
// leaf at place. Each of its callers has it in its own place, for the same reason.
#[inline(always)]
pub fn ascend(leaves: Leaves<'_>, wanted: Wanted, place: usize, out: &mut [u8]) -> [u8; 32]
    requires { Fits wanted leaves.depth place 0 (length out.old) }
    ensures { Ascends (nodes_in leaves.entry.count leaves.entry.bytes.now) leaves.entry.depth wanted place out.old 0
        out.new result }
{
    if width(leaves.depth) <= FEW {
        return ascend_few(bottom(leaves), leaves.depth, wanted, place, out, 0);
    }
    ascend_many(bottom(leaves), leaves.depth, wanted, place, out)
}

// The same over leaves that stand at the front of out: they are all in the bottom level before anything is written. Not
// by `ascend`: what is lent to be read cannot be lent to be written at the same time.
pub fn ascend_over(out: &mut [u8], count: usize, d: u32, wanted: Wanted, place: usize) -> [u8; 32]
    requires { CanBuild out.old count d × Fits wanted d place 0 (length out.old) }
    ensures { Ascends (nodes_in count out.old) d wanted place out.old 0 out.new result }
{
    let leaves = Leaves {
        bytes: out,
        count,
        depth: d,
    };
    if width(d) <= FEW {
        return ascend_few(bottom(leaves), d, wanted, place, out, 0);
    }
    ascend_many(bottom(leaves), d, wanted, place, out)
}
