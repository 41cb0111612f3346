// Requests and responses read for hosts.
ghost use Rattle.std.specs.Prelude.{◌≡◌};
ghost use Rattle.wire_packet.specs.Request.{request_of};
ghost use Rattle.wire_packet.specs.Response.{response_of};
ghost use Rattle.wire_packet.specs.Parts.{parts_of};
ghost use Rattle.c_packets.specs.Reading.{tb_request, tb_response, tb_parts};

use c_packets::{TbParts, TbRequest, TbResponse};

// Reads a request packet.
#[unsafe(no_mangle)]
pub extern "C" fn tb_read_request(packet: &[u8]) -> TbRequest
    ensures { result ≡ tb_request (request_of packet.now) }
{
    wire_packet::read_request(packet).into()
}

// Reads a response packet.
#[unsafe(no_mangle)]
pub extern "C" fn tb_read_response(packet: &[u8]) -> TbResponse
    ensures { result ≡ tb_response (response_of packet.now) }
{
    wire_packet::read_response(packet).into()
}

// The two signatures of a response packet, and the delegated key.
#[unsafe(no_mangle)]
pub extern "C" fn tb_signed_parts(packet: &[u8]) -> TbParts
    ensures { result ≡ tb_parts (parts_of packet.now) }
{
    wire_packet::read_signed_parts(packet).into()
}
