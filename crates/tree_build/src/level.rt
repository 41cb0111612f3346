// A level of a tree: an array of nodes, of which the first are in use. A level goes by value into a step, and the next
// one, of half as many nodes, comes back by value. There are two sizes, so that a batch of few leaves copies little: a
// step either keeps the size or goes over to the smaller one, and so its functions are generic in the size.
ghost use Rattle.std.specs.Prelude.{◌≡◌, ◌*◌, ◌≤◌, ◌^◌, length};
ghost use Rattle.tree.specs.Tree.{nodes_in};
ghost use Rattle.tree_build.specs.Level.{CanBuild, Level, Halved};

use super::row::{lay_leaves, parents};
use super::size::{MOST, width};

// The places of a small level. Any number from 1 to half of MOST would do: no public contract has it.
pub const FEW: usize = 32;

pub type Few = [[u8; 32]; FEW];

pub type Many = [[u8; 32]; MOST];

// The leaves of a tree: the first `count` nodes of `bytes`. A tree of this depth has place for them, and can be built.
#[derive(Clone, Copy)]
pub struct Leaves<'a> {
    pub bytes: &'a [u8],
    pub count: usize,
    pub depth: u32,
    ghost held: { CanBuild bytes.now count depth },
}

// Level 0. Each of its callers has it in its own place: a call would keep a large one twice.
#[inline(always)]
pub fn bottom<const N: usize>(leaves: Leaves<'_>) -> [[u8; 32]; N]
    requires { 2 ^ leaves.depth ≤ N }
    ensures { Level (nodes_in leaves.entry.count leaves.entry.bytes.now) 0 (2 ^ leaves.entry.depth) result
        × (length result ≡ N) }
{
    let mut row = [[0u8; 32]; N];
    lay_leaves(leaves.bytes, leaves.count, width(leaves.depth), &mut row);
    row
}

// The level above row, of n nodes, with as many places as its caller asks for.
pub fn halved<const N: usize, const M: usize>(row: [[u8; 32]; N], n: usize) -> [[u8; 32]; M]
    requires { (2 * n ≤ N) × (n ≤ M) }
    ensures { Halved row.entry n M result }
{
    let mut up = [[0u8; 32]; M];
    parents(&row, n, &mut up);
    up
}
