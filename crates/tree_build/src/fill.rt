// All rows of a tree in one buffer, at whose front the leaves stand already: for the crate above as well.
ghost use Rattle.std.specs.Prelude.{◌*◌};
ghost use Rattle.laws.specs.Flat.{flat};
ghost use Rattle.laws.specs.Written.{Puts};
ghost use Rattle.tree.specs.Tree.{nodes_in};
ghost use Rattle.tree_build.specs.AllRows.{levels, nodes_of};
ghost use Rattle.tree_build.specs.Level.{CanFill};

use super::Wanted;
use super::ascent::ascend_over;
use super::siblings::put_node;
use super::size::bytes;

// The rows of the tree of depth d over the count leaves at the front of rows: each row as it is made on the way up, and
// the root behind them.
pub fn fill_rows(rows: &mut [u8], count: usize, d: u32)
    requires { CanFill rows.old count d }
    ensures { Puts rows.old 0 (flat (levels (nodes_in count rows.old) d 0)) rows.new
        (32 * nodes_of d) }
{
    let root = ascend_over(rows, count, d, Wanted::Row, 0);
    put_node(root, rows, bytes(d) - 32);
}
