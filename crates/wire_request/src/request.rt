// The request that we send.
ghost use Rattle.std.specs.Prelude.{◌≡◌};
ghost use Rattle.laws.specs.Written.{written};
ghost use Rattle.refusal.specs.Refusal.{passed};
ghost use Rattle.wire_request.specs.Answered.{wrote_number, answered};
ghost use Rattle.wire_request.specs.Request.{request_bytes};

use hash::srv_value;
use octets::{put, zero};
use refusal::{Refusal, codes, refuse};
use wire_packet::packet::MARK;

// The message's length, 1,024; the number of its values, 5, of which the later four start at 4, 36, 68 and 72;
// the tags VER SRV NONC TYPE ZZZZ; and the value of VER, 1.
const HEAD: [u8; 48] =
    *b"\x00\x04\0\0\x05\0\0\0\x04\0\0\0\x24\0\0\0\x44\0\0\0\x48\0\0\0VER\0SRV\0NONCTYPEZZZZ\x01\0\0\0";

// A request to the server with this long-term key, with this nonce, at the front of out.
// It is refused only where out has fewer than its 1,036 bytes.
pub fn write_request(key: [u8; 32], nonce: [u8; 32], out: &mut [u8]) -> Result<usize, Refusal>
    ensures value { result ≡ answered passed (request_bytes key nonce) out.old }
    ensures out_after { out.new ≡ written (wrote_number result) (request_bytes key nonce) out.old }
{
    if out.len() < 1036 {
        return Err(refuse(codes::ROOM));
    }
    let srv = srv_value(key);
    put(out, 0, &MARK);
    put(out, 8, &HEAD);
    put(out, 56, &srv);
    put(out, 88, &nonce);
    // The value of TYPE is 0, and that of ZZZZ is zeros.
    zero(out, 120, 1036);
    Ok(1036)
}
