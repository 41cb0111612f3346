// What is written of a level before it is halved.
ghost use Rattle.std.specs.Prelude.{[], length, get_or};
ghost use Rattle.tree_build.specs.Level.{CanPut, PutPart};

use super::Wanted;
use super::row::put_row;
use super::siblings::{other, put_node};

// What is wanted of a level of n nodes, which stand at the front of row, from index at of out on: the sibling is that
// of node j. Answers the index behind it. row and n are apart, as a level has places that are not in use.
pub fn put_part(
    wanted: Wanted,
    row: &[[u8; 32]],
    n: usize,
    j: usize,
    out: &mut [u8],
    at: usize,
) -> usize
    requires { CanPut wanted n j (length row.now) at (length out.old) }
    ensures { PutPart wanted (λ i. get_or row.now i []) n j out.old at out.new result }
{
    match wanted {
        Wanted::Nothing => at,
        Wanted::Sibling => {
            put_node(row[other(j)], out, at);
            at + 32
        }
        Wanted::Row => {
            put_row(row, n, out, at);
            at + 32 * n
        }
    }
}
