// What is refused, before anything is written.
ghost use Rattle.std.specs.Prelude.{◌≡◌, ◌≤◌, ◌<◌, length};
ghost use Rattle.refusal.specs.Refusal.{passes};
ghost use Rattle.server_response.specs.Facts.{Certifies};
ghost use Rattle.tree_build.specs.Leaves.{most};
ghost use Rattle.server_batch.specs.Answering.{other_key, count_wrong, room_short, keys_code, sizes_code};

use super::packets::Packets;
use super::service::Service;
use octets::equal;
use refusal::{Refusal, codes, refuse};
use server_parts::radius_code;
use server_response::{cert_code, midp_outside};
use tree_build::{MOST, bytes, depth};
use wire_message::tags::{DELE, PUBK};
use wire_message::value_of;
use wire_packet::fields::value32;

// The key is not the one that CERT delegates to.
fn other_key(service: &Service<'_>) -> bool
    requires { Certifies service.now.cert.now }
    ensures { result ≡ other_key service.now.seed service.now.cert.now }
{
    let theirs = value32(value_of(service.cert, DELE), PUBK);
    !equal(&service.key, &theirs)
}

// Codes 7 for RADI 0; 4 to 7 for CERT and its DELE; 35; 11.
pub fn keys_code(service: &Service<'_>) -> Result<(), Refusal>
    ensures { result
        ≡ passes (keys_code service.now.cert.now service.now.seed service.now.midp service.now.radi) }
{
    radius_code(service.radi)?;
    cert_code(service.cert)?;
    if other_key(service) {
        return Err(refuse(codes::OTHER_KEY));
    }
    if midp_outside(service.midp, service.cert) {
        return Err(refuse(codes::TIME));
    }
    Ok(())
}

// No packet, or too many.
fn count_wrong(n: usize) -> bool
    ensures { result ≡ count_wrong n }
{
    n == 0 || MOST < n
}

// Too little room for the packets, or in the buffers for their answers.
fn room_short(
    packets: Packets<'_>,
    service: &Service<'_>,
    rows: &[u8],
    out: &[u8],
    lengths: &[u32],
) -> bool
    requires { (0 < length packets.lengths.now) × (length packets.lengths.now ≤ most) }
    ensures { result
        ≡ room_short (length packets.entry.lengths.now) (length service.now.cert.now)
        (length packets.entry.slots.now) packets.entry.slot (length rows.now) (length out.now) service.now.room
        (length lengths.now) }
{
    let n = packets.lengths.len();
    let c = service.cert.len();
    let d = depth(n);
    if packets.slots.len() / n < packets.slot {
        return true;
    }
    if rows.len() < bytes(d) {
        return true;
    }
    if out.len() / n < service.room {
        return true;
    }
    if lengths.len() < n {
        return true;
    }
    if service.room < c {
        return true;
    }
    service.room - c < 264 + 32 * d as usize
}

// Codes 20 and 19.
pub fn sizes_code(
    packets: Packets<'_>,
    service: &Service<'_>,
    rows: &[u8],
    out: &[u8],
    lengths: &[u32],
) -> Result<(), Refusal>
    ensures { result
        ≡ passes
        (sizes_code (length packets.entry.lengths.now) (length service.now.cert.now)
        (length packets.entry.slots.now) packets.entry.slot (length rows.now) (length out.now) service.now.room
        (length lengths.now)) }
{
    if count_wrong(packets.lengths.len()) {
        return Err(refuse(codes::LEAVES));
    }
    if room_short(packets, service, rows, out, lengths) {
        return Err(refuse(codes::ROOM));
    }
    Ok(())
}
