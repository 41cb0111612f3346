// Reading a response: codes 1 to 8, and what a good one says.
ghost use Rattle.std.specs.Prelude.{◌≡◌};
ghost use Rattle.laws.specs.Numbers.{le};
ghost use Rattle.refusal.specs.Refusal.{passes};
ghost use Rattle.wire_message.specs.Tags.{VER};
ghost use Rattle.wire_message.specs.Values.{value_of};
ghost use Rattle.wire_packet.specs.Facts.{Shaped};
ghost use Rattle.wire_packet.specs.Response.{srep, signed_code, version_unlisted, response_message_code, response_code};
ghost use Rattle.wire_packet.specs.Response.{response_in, response_of};

use super::Response;
use super::fields::{lacks_version, number32, number64, value32};
use super::packet::{BODY_START, body_of, message_in};
use super::shape::shape_code;
use refusal::{Refusal, codes, refuse};
use wire_message::tags::{INDX, MIDP, NONC, RADI, ROOT, SREP, TYPE, VER, VERS};
use wire_message::value_of;

// Reads a response packet.
pub fn read_response(p: &[u8]) -> Result<Response, Refusal>
    ensures { result ≡ response_of p.now }
{
    response_code(p)?;
    Ok(good_response(body_of(p)))
}

// Codes 1 to 8 of a response packet, with their place in it. As in `request_code`, the check of the message is what differs.
pub fn response_code(p: &[u8]) -> Result<(), Refusal>
    ensures { result ≡ passes (response_code p.now) }
{
    response_message_code(message_in(p)?).map_err(|why| why.shifted(BODY_START))
}

// Codes 1 to 7 of a response packet, with their place in it: what the signed texts ask. As in `request_code`, the check of
// the message is what differs.
pub fn signed_code(p: &[u8]) -> Result<(), Refusal>
    ensures { result ≡ passes (signed_code p.now) }
{
    shape_code(message_in(p)?).map_err(|why| why.shifted(BODY_START))
}

// Codes 4 to 8 of a response's message.
fn response_message_code(m: &[u8]) -> Result<(), Refusal>
    ensures { result ≡ passes (response_message_code m.now) }
{
    shape_code(m)?;
    if number32(m, TYPE) != 1 {
        return Err(refuse(codes::TYPE_OR_VERSION));
    }
    if srep_version(m) != 1 {
        return Err(refuse(codes::TYPE_OR_VERSION));
    }
    if version_unlisted(m) {
        return Err(refuse(codes::TYPE_OR_VERSION));
    }
    Ok(())
}

// VERS does not hold SREP's version.
fn version_unlisted(m: &[u8]) -> bool
    requires { Shaped m.now }
    ensures { result ≡ version_unlisted m.now }
{
    lacks_version(value_of(m, SREP), VERS, srep_version(m))
}

// SREP's version.
pub fn srep_version(m: &[u8]) -> u32
    requires { Shaped m.now }
    ensures { result ≡ le 4 (value_of (srep m.now) VER) 0 }
{
    number32(value_of(m, SREP), VER)
}

fn good_response(m: &[u8]) -> Response
    requires { Shaped m.now }
    ensures { result ≡ response_in m.now }
{
    let nonc = value32(m, NONC);
    let indx = number32(m, INDX);
    let srep = value_of(m, SREP);
    let midp = number64(srep, MIDP);
    let radi = number32(srep, RADI);
    let root = value32(srep, ROOT);
    Response {
        nonc: nonc,
        indx: indx,
        midp: midp,
        radi: radi,
        root: root,
    }
}
