// What we write, for hosts.
ghost use Rattle.std.specs.Prelude.{◌≡◌};
ghost use Rattle.laws.specs.Written.{written};
ghost use Rattle.refusal.specs.Refusal.{passed};
ghost use Rattle.wire_packet.specs.Response.{signed_code};
ghost use Rattle.wire_request.specs.Answered.{answered};
ghost use Rattle.wire_request.specs.Request.{request_bytes};
ghost use Rattle.wire_request.specs.Texts.{delegation_text, response_text};
ghost use Rattle.c_packets.specs.Writing.{tb_wrote};

use c_packets::TbWrote;

// A request to the server with this long-term key, with this nonce, at the front of out.
#[unsafe(no_mangle)]
pub extern "C" fn tb_write_request(key: &[u8; 32], nonce: &[u8; 32], out: &mut [u8]) -> TbWrote
    ensures value { result
        ≡ tb_wrote (answered passed (request_bytes key.now nonce.now) out.old) }
    ensures out_after { out.new
        ≡ written result.code (request_bytes key.now nonce.now) out.old }
{
    wire_request::write_request(*key, *nonce, out).into()
}

// The delegation text of a response packet, at the front of out.
#[unsafe(no_mangle)]
pub extern "C" fn tb_delegation_text(packet: &[u8], out: &mut [u8]) -> TbWrote
    ensures value { result
        ≡ tb_wrote
        (answered (signed_code packet.now) (delegation_text packet.now) out.old) }
    ensures out_after { out.new
        ≡ written result.code (delegation_text packet.now) out.old }
{
    wire_request::delegation_text(packet, out).into()
}

// The response text of a response packet, at the front of out.
#[unsafe(no_mangle)]
pub extern "C" fn tb_response_text(packet: &[u8], out: &mut [u8]) -> TbWrote
    ensures value { result
        ≡ tb_wrote
        (answered (signed_code packet.now) (response_text packet.now) out.old) }
    ensures out_after { out.new
        ≡ written result.code (response_text packet.now) out.old }
{
    wire_request::response_text(packet, out).into()
}
