// A batch's root, its paths one at a time, and all rows of its tree at once.
ghost use Rattle.std.specs.Prelude.{◌≡◌, length};
ghost use Rattle.laws.specs.Written.{written};
ghost use Rattle.tree_build.specs.Leaves.{count_of, held_of};
ghost use Rattle.tree_build.specs.Building.{rooted_of, path_number, path_answer, path_bytes, from_bytes};
ghost use Rattle.tree_build.specs.Building.{rows_number, rows_answer, rows_bytes};

use super::ascent::ascend;
use super::fill::fill_rows;
use super::level::Leaves;
use super::siblings::read_path;
use super::size::{bytes, count_of, depth, held_of};
use super::{Rooted, Wanted};
use octets::put;
use refusal::{Refusal, codes, refuse};

// The root of a batch, and the depth of its tree.
pub fn root(leaves: &[u8]) -> Result<Rooted, Refusal>
    ensures { result ≡ rooted_of leaves.now }
{
    let count = count_of(leaves.len());
    if count == 0 {
        return Err(refuse(codes::LEAVES));
    }
    let d = depth(count);
    let mut none = [0u8; 0];
    let batch = Leaves {
        bytes: leaves,
        count,
        depth: d,
    };
    let root = ascend(batch, Wanted::Nothing, 0, &mut none);
    Ok(Rooted { depth: d, root })
}

// The path of the leaf at place, at the front of out. For the paths of many leaves of one batch, use `rows` and
// `path_from`.
pub fn path(leaves: &[u8], place: usize, out: &mut [u8]) -> Result<(u32, u32), Refusal>
    ensures value { result ≡ path_answer (count_of (length leaves.now)) place (length out.old) }
    ensures out_after { out.new ≡ written (path_number result) (path_bytes leaves.now place) out.old }
{
    let count = count_of(leaves.len());
    if count <= place {
        return Err(refuse(codes::LEAVES));
    }
    let d = depth(count);
    if out.len() < 32 * (d as usize) {
        return Err(refuse(codes::ROOM));
    }
    let batch = Leaves {
        bytes: leaves,
        count,
        depth: d,
    };
    ascend(batch, Wanted::Sibling, place, out);
    Ok((place as u32, d))
}

// All rows of the tree of a batch, the leaves first and the root last, at the front of out.
pub fn rows(leaves: &[u8], out: &mut [u8]) -> Result<u32, Refusal>
    ensures value { result ≡ rows_answer (count_of (length leaves.now)) (length out.old) }
    ensures out_after { out.new ≡ written (rows_number result) (rows_bytes leaves.now) out.old }
{
    let count = count_of(leaves.len());
    if count == 0 {
        return Err(refuse(codes::LEAVES));
    }
    let d = depth(count);
    let size = bytes(d);
    if out.len() < size {
        return Err(refuse(codes::ROOM));
    }
    put(out, 0, leaves);
    fill_rows(out, count, d);
    Ok(d)
}

// The path of the leaf at place of count leaves, read out of what `rows` wrote for them. Rows that are too short have
// no such leaf.
pub fn path_from(
    rows: &[u8],
    count: usize,
    place: usize,
    out: &mut [u8],
) -> Result<(u32, u32), Refusal>
    ensures value { result ≡ path_answer (held_of (length rows.now) count) place (length out.old) }
    ensures out_after { out.new ≡ written (path_number result) (from_bytes rows.now count place) out.old }
{
    let held = held_of(rows.len(), count);
    if held <= place {
        return Err(refuse(codes::LEAVES));
    }
    let d = depth(held);
    if out.len() < 32 * (d as usize) {
        return Err(refuse(codes::ROOM));
    }
    read_path(rows, d, place, out);
    Ok((place as u32, d))
}
