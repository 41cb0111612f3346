// The leaves of the packets that are answered.
ghost use Rattle.std.specs.Prelude.{◌≡◌, ◌+◌, ◌*◌, ◌≤◌, ◌<◌, length};
ghost use Rattle.server_batch.specs.Steps.{stay_at, leaf_in, PutLeaf, PutLeaves};

use super::choosing::Chosen;
use hash::leaf;
use octets::put;

// The leaf of packet i as node k at the front of rows, where it is answered. Answers the number of the next node.
fn put_leaf(chosen: Chosen<'_>, i: usize, rows: &mut [u8], k: usize) -> usize
    requires { (i < length chosen.packets.lengths.now) × (32 * k + 32 ≤ length rows.old) }
    ensures { PutLeaf (stay_at chosen.entry.marks.now chosen.entry.packets.lengths.now chosen.entry.least i)
        (leaf_in chosen.entry.packets.slots.now chosen.entry.packets.slot chosen.entry.packets.lengths.now i) rows.old
        k rows.new result }
{
    match chosen.answered(i) {
        Some(p) => {
            put(rows, 32 * k, &leaf(p));
            k + 1
        }
        None => k,
    }
}

// The leaves of all packets that are answered, at the front of rows. Answers how many there are.
pub fn put_leaves(chosen: Chosen<'_>, rows: &mut [u8]) -> usize
    requires { 32 * length chosen.packets.lengths.now ≤ length rows.old }
    ensures { PutLeaves (stay_at chosen.entry.marks.now chosen.entry.packets.lengths.now chosen.entry.least)
        (leaf_in chosen.entry.packets.slots.now chosen.entry.packets.slot chosen.entry.packets.lengths.now)
        (length chosen.entry.packets.lengths.now) rows.old rows.new result }
{
    let mut k: usize = 0;
    // By the number of a packet: its slot, its length and its mark stand in three places.
    for i in 0..chosen.packets.lengths.len() {
        k = put_leaf(chosen, i, rows, k);
    }
    k
}
