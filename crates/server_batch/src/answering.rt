// The answers, each at the front of its slot.
ghost use Rattle.std.specs.Prelude.{true, ◌≡◌, ◌+◌, ◌*◌, ◌^◌, ◌≤◌, ◌<◌, length};
ghost use Rattle.laws.specs.Pasted.{pasted};
ghost use Rattle.server_batch.specs.Steps.{stay_at, CanAnswer, Answering, AnsweredOne, answer_in, answers_in};
ghost use Rattle.server_batch.specs.Answering.{out_after};
ghost use Rattle.server_batch.specs.Picking.{how_many};
ghost use Rattle.server_batch.specs.Batch.{packet_in};

use super::choosing::Chosen;
use super::{Common, Said};
use server_parts::put_srep;
use server_response::{put_end, put_front};
use tree_build::read_path;
use wire_message::tags::NONC;
use wire_packet::fields::value32;
use wire_packet::packet::body_of;

// The answer to a packet, at the front of dst: its place in the tree is indx.
fn write_answer(p: &[u8], indx: usize, common: Common<'_>, dst: &mut [u8])
    requires { CanAnswer p.now indx common.rows.now common.depth common.said
        (length common.cert.now) (length dst.old) }
    ensures { (dst.new
        ≡ pasted dst.old 0
        (answer_in p.now indx common.entry.rows.now common.entry.depth common.entry.said common.entry.cert.now))
        × (length (answer_in p.now indx common.entry.rows.now common.entry.depth common.entry.said common.entry.cert.now)
        ≡ 264 + 32 * common.entry.depth + length common.entry.cert.now) }
{
    let n = 32 * common.depth as usize;
    let nonce = value32(body_of(p), NONC);
    let Said {
        root,
        midp,
        radi,
        signature,
    } = common.said;
    put_front(dst, signature, nonce, n as u32, common.cert.len() as u32);
    let behind = 168 + n;
    read_path(common.rows, common.depth, indx, &mut dst[168..behind]);
    // SREP has 92 bytes.
    put_srep(dst, behind, root, midp, radi);
    put_end(dst, behind + 92, common.cert, indx as u32);
}

// The answer to packet i at the front of its slot of out, where it is answered: its place is k. Answers the next place.
fn answer_one(chosen: Chosen<'_>, i: usize, common: Common<'_>, k: usize, out: &mut [u8]) -> usize
    requires { (i < length chosen.packets.lengths.now)
        × Answering common.rows.now common.depth common.said (length common.cert.now) chosen.least
        (length chosen.packets.lengths.now) common.room (length out.old)
        × (stay_at chosen.marks.now chosen.packets.lengths.now chosen.least i ≡ true
        → k < 2 ^ common.depth) }
    ensures { AnsweredOne
        (stay_at chosen.entry.marks.now chosen.entry.packets.lengths.now chosen.entry.least i)
        (answer_in (packet_in chosen.entry.packets.slots.now chosen.entry.packets.slot chosen.entry.packets.lengths.now i)
        k common.entry.rows.now common.entry.depth common.entry.said common.entry.cert.now)
        (common.entry.room * i) out.old k out.new result }
{
    match chosen.answered(i) {
        Some(p) => {
            let start = common.room * i;
            let end = start + common.room;
            write_answer(p, k, common, &mut out[start..end]);
            k + 1
        }
        None => k,
    }
}

// The answers to all packets that are answered.
pub fn answer_each(chosen: Chosen<'_>, common: Common<'_>, out: &mut [u8])
    requires { Answering common.rows.now common.depth common.said (length common.cert.now)
        chosen.least (length chosen.packets.lengths.now) common.room (length out.old)
        × (how_many (stay_at chosen.marks.now chosen.packets.lengths.now chosen.least)
        (length chosen.packets.lengths.now)
        ≤ 2 ^ common.depth) }
    ensures { out.new
        ≡ out_after (stay_at chosen.entry.marks.now chosen.entry.packets.lengths.now chosen.entry.least)
        (answers_in chosen.entry.packets.slots.now chosen.entry.packets.slot chosen.entry.packets.lengths.now
        chosen.entry.marks.now chosen.entry.least common.entry.rows.now common.entry.depth common.entry.said common.entry.cert.now)
        common.entry.room out.old (length chosen.entry.packets.lengths.now) }
{
    let mut k: usize = 0;
    // By the number of a packet, which says where the slots of it and of its answer stand.
    for i in 0..chosen.packets.lengths.len() {
        k = answer_one(chosen, i, common, k, out);
    }
}
