// The siblings of a leaf, read out of the rows of a tree. Nothing is hashed, and the rows may be any bytes.
ghost use Rattle.std.specs.Prelude.{◌≡◌, ◌+◌, ◌*◌, ◌≤◌, ◌<◌, length};
ghost use Rattle.laws.specs.Flat.{flat};
ghost use Rattle.laws.specs.Written.{Puts};
ghost use Rattle.tree.specs.Tree.{beside};
ghost use Rattle.tree_build.specs.AllRows.{path_in};
ghost use Rattle.tree_build.specs.Leaves.{most};
ghost use Rattle.tree_build.specs.Level.{CanRead};

use super::size::width;
use octets::{copy32, put};

// The place of the other child of j's parent.
pub fn other(j: usize) -> usize
    requires { j < most }
    ensures { result ≡ beside j }
{
    if j % 2 == 0 { j + 1 } else { j - 1 }
}

// A node, from index at of out on. It comes by value: what is lent could be a part of out for all that the compiler
// knows, and would be copied byte by byte.
pub fn put_node(node: [u8; 32], out: &mut [u8], at: usize)
    requires { at + 32 ≤ length out.old }
    ensures { Puts out.old at node out.new (at + 32) }
{
    put(out, at, &node);
}

// The siblings of the leaf at place, leaf end first, at the front of out. A level has n nodes, from number first on, and
// on the way up place says which node of the level is on the way.
pub fn read_path(rows: &[u8], d: u32, mut place: usize, out: &mut [u8])
    requires { CanRead rows.now d place (length out.old) }
    ensures { Puts out.old 0 (flat (path_in rows.now d place)) out.new (32 * d) }
{
    let mut first: usize = 0;
    let mut n = width(d);
    let mut at: usize = 0;
    for left in (0..d).rev() {
        put_node(copy32(rows, 32 * (first + other(place))), out, at);
        first += n;
        n = n / 2;
        place = place / 2;
        at += 32;
    }
}
