// Which packets are meant for the server.
ghost use Rattle.std.specs.Prelude.{◌≡◌, ◌≤◌, ◌<◌, length};
ghost use Rattle.laws.specs.Pasted.{fronted};
ghost use Rattle.laws.specs.Upto.{upto};
ghost use Rattle.server_batch.specs.Batch.{batch, meant_for, meant_at};
ghost use Rattle.server_batch.specs.Steps.{Slots, mark_at};

use super::packets::Packets;
use octets::equal;
use wire_message::has_tag;
use wire_message::tags::SRV;
use wire_packet::fields::value32;
use wire_packet::packet::body_of;
use wire_packet::request_bad;

// Whether a packet is a good request that is meant for the server with this SRV value.
fn meant_for(p: &[u8], srv: [u8; 32]) -> bool
    ensures { result ≡ meant_for srv p.now }
{
    if request_bad(p) {
        return false;
    }
    let m = body_of(p);
    if has_tag(m, SRV) {
        let theirs = value32(m, SRV);
        return equal(&theirs, &srv);
    }
    true
}

// Whether packet i is.
fn meant_at(packets: Packets<'_>, srv: [u8; 32], i: usize) -> bool
    requires { Slots (batch packets.slots.now packets.slot packets.lengths.now srv)
        × (i < length packets.lengths.now) }
    ensures { result
        ≡ meant_at (batch packets.entry.slots.now packets.entry.slot packets.entry.lengths.now srv) i }
{
    if packets.slot < packets.size(i) {
        return false;
    }
    meant_for(packets.packet(i), srv)
}

// 1 for each packet that is, and 0 for the others, at the front of marks: numbers, since marks stand in the caller's
// buffer of lengths (there is no heap).
pub fn mark(packets: Packets<'_>, srv: [u8; 32], marks: &mut [u32])
    requires { Slots (batch packets.slots.now packets.slot packets.lengths.now srv)
        × (length packets.lengths.now ≤ length marks.old) }
    ensures { marks.new
        ≡ fronted
        (upto (mark_at (batch packets.entry.slots.now packets.entry.slot packets.entry.lengths.now srv))
        (length packets.entry.lengths.now))
        marks.old }
{
    // By the number of a packet: its slot, its length and its mark stand in three places.
    for i in 0..packets.lengths.len() {
        marks[i] = u32::from(meant_at(packets, srv, i));
    }
}
