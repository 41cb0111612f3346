// The two texts of a response that are signed, for the caller to verify: a context string, and then the value of DELE
// or of SREP.
ghost use Rattle.std.specs.Prelude.{◌≡◌, ◌++◌};
ghost use Rattle.laws.specs.Written.{written};
ghost use Rattle.refusal.specs.Refusal.{passed};
ghost use Rattle.wire_packet.specs.Response.{signed_code};
ghost use Rattle.wire_request.specs.Answered.{wrote_number, answered};
ghost use Rattle.wire_request.specs.Texts.{delegation_text, response_text};

use octets::put;
use refusal::{Refusal, codes, refuse};
use wire_message::tags::SREP;
use wire_message::value_of;
use wire_packet::packet::body_of;
use wire_packet::{dele_of, signed_code};

pub const DELEGATION: [u8; 34] = *b"RoughTime v1 delegation signature\0";

pub const RESPONSE: [u8; 32] = *b"RoughTime v1 response signature\0";

// The delegation text of a response packet, at the front of out.
pub fn delegation_text(p: &[u8], out: &mut [u8]) -> Result<usize, Refusal>
    ensures value { result ≡ answered (signed_code p.now) (delegation_text p.now) out.old }
    ensures out_after { out.new ≡ written (wrote_number result) (delegation_text p.now) out.old }
{
    signed_code(p)?;
    write_text(&DELEGATION, dele_of(body_of(p)), out)
}

// The response text of a response packet, at the front of out.
pub fn response_text(p: &[u8], out: &mut [u8]) -> Result<usize, Refusal>
    ensures value { result ≡ answered (signed_code p.now) (response_text p.now) out.old }
    ensures out_after { out.new ≡ written (wrote_number result) (response_text p.now) out.old }
{
    signed_code(p)?;
    write_text(&RESPONSE, value_of(body_of(p), SREP), out)
}

// The context, and the value behind it, at the front of out.
fn write_text(context: &[u8], value: &[u8], out: &mut [u8]) -> Result<usize, Refusal>
    ensures value { result ≡ answered passed (context.now ++ value.now) out.old }
    ensures out_after { out.new
        ≡ written (wrote_number result) (context.now ++ value.now) out.old }
{
    let n = context.len() + value.len();
    if out.len() < n {
        return Err(refuse(codes::ROOM));
    }
    put(out, 0, context);
    put(out, context.len(), value);
    Ok(n)
}
