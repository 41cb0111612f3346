// Trees and paths for hosts.
ghost use Rattle.std.specs.Prelude.{◌≡◌, length};
ghost use Rattle.laws.specs.Written.{written};
ghost use Rattle.tree_build.specs.Building.{rooted_of, path_answer, path_bytes, from_bytes, rows_answer, rows_bytes};
ghost use Rattle.tree_build.specs.Leaves.{count_of, held_of};
ghost use Rattle.tree.specs.PathCheck.{leads_of};
ghost use Rattle.c_packets.specs.Building.{tb_rooted, tb_placed, tb_laid};

use c_packets::{TbLaid, TbPlaced, TbRooted};

// Whether the siblings of a path lead from the leaf to the root, by INDX.
#[unsafe(no_mangle)]
pub extern "C" fn tb_leads(leaf: &[u8; 32], indx: u32, path: &[u8], root: &[u8; 32]) -> bool
    ensures { result ≡ leads_of leaf.now indx path.now root.now }
{
    tree::leads(*leaf, indx, path, *root)
}

// The root of a batch of leaves.
#[unsafe(no_mangle)]
pub extern "C" fn tb_root(leaves: &[u8]) -> TbRooted
    ensures { result ≡ tb_rooted (rooted_of leaves.now) }
{
    tree_build::root(leaves).into()
}

// The path of the leaf at a place, at the front of out.
#[unsafe(no_mangle)]
pub extern "C" fn tb_path(leaves: &[u8], place: usize, out: &mut [u8]) -> TbPlaced
    ensures value { result
        ≡ tb_placed (path_answer (count_of (length leaves.now)) place (length out.old)) }
    ensures out_after { out.new ≡ written result.code (path_bytes leaves.now place) out.old }
{
    tree_build::path(leaves, place, out).into()
}

// All rows of the tree of a batch, at the front of out. The root is the last 32 bytes of them.
#[unsafe(no_mangle)]
pub extern "C" fn tb_rows(leaves: &[u8], out: &mut [u8]) -> TbLaid
    ensures value { result
        ≡ tb_laid (rows_answer (count_of (length leaves.now)) (length out.old))
        (length (rows_bytes leaves.now)) }
    ensures out_after { out.new ≡ written result.code (rows_bytes leaves.now) out.old }
{
    let length = tree_build::rows_length(leaves.len());
    c_packets::rows_told(tree_build::rows(leaves, out), length)
}

// The path of the leaf at a place of count leaves, read out of the rows of their tree, at the front of out.
#[unsafe(no_mangle)]
pub extern "C" fn tb_path_from(rows: &[u8], count: usize, place: usize, out: &mut [u8]) -> TbPlaced
    ensures value { result
        ≡ tb_placed (path_answer (held_of (length rows.now) count) place (length out.old)) }
    ensures out_after { out.new
        ≡ written result.code (from_bytes rows.now count place) out.old }
{
    tree_build::path_from(rows, count, place, out).into()
}
