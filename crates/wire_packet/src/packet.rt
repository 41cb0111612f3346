// Packets: codes 1 to 3, and the message within. That a packet has its 12 bytes is asked by a clause, and not kept by a
// type: callers learn it from a code, as of `request_bad` or `response_code`, which hands back no packet, so that a
// value of that type would be made by testing the length once more.
ghost use Rattle.std.specs.Prelude.{◌≡◌, ◌≤◌, Err, MatchResult, length};
ghost use Rattle.refusal.specs.Refusal.{passes};
ghost use Rattle.wire_packet.specs.Packet.{mark_wrong, length_wrong, packet_code, body};

use octets::{equal, le32};
use refusal::{Refusal, codes, refuse};

// Where the message of a packet starts.
pub const BODY_START: usize = 12;

// The eight bytes that every packet begins with.
pub const MARK: [u8; 8] = *b"ROUGHTIM";

// Codes 1 to 3 of a packet.
pub fn packet_code(p: &[u8]) -> Result<(), Refusal>
    ensures { result ≡ passes (packet_code p.now) }
{
    if p.len() < 12 {
        return Err(refuse(codes::PACKET_SIZE));
    }
    if 2000 < p.len() {
        return Err(refuse(codes::PACKET_SIZE));
    }
    if mark_wrong(p) {
        return Err(refuse(codes::MARK));
    }
    if length_wrong(p) {
        return Err(refuse(codes::PACKET_LENGTH));
    }
    Ok(())
}

// The message of a packet that has none of the codes 1 to 3.
pub(crate) fn message_in(p: &[u8]) -> Result<&[u8], Refusal>
    ensures { MatchResult result
        (λ m. ((packet_code p.now).code ≡ 0) × (m.now ≡ body p.now))
        (λ why. Err why ≡ passes (packet_code p.now)) }
{
    packet_code(p)?;
    Ok(body_of(p))
}

// The first eight bytes are not the mark.
fn mark_wrong(p: &[u8]) -> bool
    requires { 12 ≤ length p.now }
    ensures { result ≡ mark_wrong p.now }
{
    !equal(&p[..8], &MARK)
}

// The length field is not the number of the bytes after it.
fn length_wrong(p: &[u8]) -> bool
    requires { 12 ≤ length p.now }
    ensures { result ≡ length_wrong p.now }
{
    le32(p, 8) as usize != p.len() - 12
}

// The message of a packet.
pub fn body_of(p: &[u8]) -> &[u8]
    requires { 12 ≤ length p.now }
    ensures { result.now ≡ body p.now }
{
    &p[12..]
}
