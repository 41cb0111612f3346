// The tree over the leaves, one signature over its root, and the answers.
ghost use Rattle.std.specs.Prelude.{◌≡◌, ◌*◌, ◌^◌, ◌≤◌, length};
ghost use Rattle.tree_build.specs.AllRows.{nodes_of};
ghost use Rattle.tree_build.specs.Leaves.{most};
ghost use Rattle.server_batch.specs.Steps.{stay_at, CanServe, Served, said_of, Whole};

use super::answering::answer_each;
use super::choosing::Chosen;
use super::saying::sign_root;
use super::service::Service;
use super::{Common, Said};
use octets::copy32;
use tree_build::{bytes, depth, fill_rows};

// What all answers say, where these are the rows of the tree of depth d.
fn say(rows: &[u8], d: u32, service: &Service<'_>) -> Said
    requires { (2 ^ d ≤ most) × (32 * nodes_of d ≤ length rows.now) }
    ensures { (result ≡ said_of rows.now d service.now.seed service.now.midp service.now.radi)
        × Whole result }
{
    let root = copy32(rows, bytes(d) - 32);
    let signature = sign_root(service, root);
    Said {
        root,
        midp: service.midp,
        radi: service.radi,
        signature,
    }
}

// The rows over the k leaves at the front of rows, and the answers to the packets whose leaves these are.
pub fn serve(chosen: Chosen<'_>, k: usize, service: &Service<'_>, rows: &mut [u8], out: &mut [u8])
    requires { CanServe (stay_at chosen.marks.now chosen.packets.lengths.now chosen.least) k
        (length chosen.packets.lengths.now) (length service.now.cert.now) chosen.least
        (length rows.old) (length out.old) service.now.room }
    ensures { Served chosen.entry.packets.slots.now chosen.entry.packets.slot chosen.entry.packets.lengths.now
        chosen.entry.marks.now chosen.entry.least k service.now.cert.now service.now.seed service.now.midp
        service.now.radi service.now.room rows.old out.old rows.new out.new }
{
    let d = depth(k);
    fill_rows(rows, k, d);
    let said = say(rows, d, service);
    let common = Common {
        rows,
        depth: d,
        said,
        cert: service.cert,
        room: service.room,
    };
    answer_each(chosen, common, out);
}
