// The nodes of a level, whatever its size, as a row that is lent: filled with the leaves, made of the level below, and
// written out.
ghost use Rattle.std.specs.Prelude.{◌≡◌, ◌+◌, ◌*◌, ◌≤◌, length};
ghost use Rattle.laws.specs.Written.{Puts};
ghost use Rattle.tree.specs.Tree.{nodes_in};
ghost use Rattle.tree_build.specs.Level.{Level, Padded, Halved, bytes_of};

use super::siblings::put_node;
use hash::{empty_place, parent};
use octets::copy32;

// The empty places of a row of n, from place count on. Where there is none, nothing is hashed.
fn pad(row: &mut [[u8; 32]], count: usize, n: usize)
    requires { n ≤ length row.old }
    ensures { Padded row.old count n row.new }
{
    if count < n {
        row[count..n].fill(empty_place());
    }
}

// Level 0, of n places: the leaves, and behind them the empty places.
pub fn lay_leaves(leaves: &[u8], count: usize, n: usize, row: &mut [[u8; 32]])
    requires { (count ≤ n) × (n ≤ length row.old) × (32 * count ≤ length leaves.now) }
    ensures { Level (nodes_in count leaves.now) 0 n row.new
        × (length row.new ≡ length row.old) }
{
    for i in 0..count {
        row[i] = copy32(leaves, 32 * i);
    }
    pad(row, count, n);
}

// The level above row, of n nodes, in up: each the parent of its two children.
pub fn parents(row: &[[u8; 32]], n: usize, up: &mut [[u8; 32]])
    requires { (2 * n ≤ length row.now) × (n ≤ length up.old) }
    ensures { Halved row.now n (length up.old) up.new }
{
    for i in 0..n {
        let left = row[2 * i];
        let right = row[2 * i + 1];
        up[i] = parent(left, right);
    }
}

// The first n nodes of row, from index at of out on.
pub fn put_row(row: &[[u8; 32]], n: usize, out: &mut [u8], at: usize)
    requires { (n ≤ length row.now) × (at + 32 * n ≤ length out.old) }
    ensures { Puts out.old at (bytes_of row.now n) out.new (at + 32 * n) }
{
    for i in 0..n {
        put_node(row[i], out, at + 32 * i);
    }
}
