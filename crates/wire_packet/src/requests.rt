// Reading a request.
ghost use Rattle.std.specs.Prelude.{◌≡◌};
ghost use Rattle.refusal.specs.Refusal.{passes};
ghost use Rattle.wire_packet.specs.Facts.{Asks};
ghost use Rattle.wire_packet.specs.Request.{request_message_code, request_code, request_bad, srv_in, request_in};
ghost use Rattle.wire_packet.specs.Request.{request_of};

use super::Request;
use super::fields::{lacks_version, number32, value32};
use super::packet::{BODY_START, body_of, message_in};
use super::tables::REQUEST_TABLE;
use refusal::{Refusal, codes, refuse};
use wire_message::tags::{NONC, SRV, TYPE, VER};
use wire_message::{has_tag, message_code};

// Reads a request packet.
pub fn read_request(p: &[u8]) -> Result<Request, Refusal>
    ensures { result ≡ request_of p.now }
{
    request_code(p)?;
    Ok(good_request(body_of(p)))
}

// Codes 1 to 8 of a request packet, with their place in it. `response_code` and `signed_code` are this line too, each with
// its own check of the message: with the check handed in, a caller would write as much.
pub fn request_code(p: &[u8]) -> Result<(), Refusal>
    ensures { result ≡ passes (request_code p.now) }
{
    request_message_code(message_in(p)?).map_err(|why| why.shifted(BODY_START))
}

// The request is refused.
pub fn request_bad(p: &[u8]) -> bool
    ensures { result ≡ request_bad p.now }
{
    request_code(p).is_err()
}

// Codes 4 to 8 of a request's message.
fn request_message_code(m: &[u8]) -> Result<(), Refusal>
    ensures { result ≡ passes (request_message_code m.now) }
{
    message_code(m, &REQUEST_TABLE)?;
    if number32(m, TYPE) != 0 {
        return Err(refuse(codes::TYPE_OR_VERSION));
    }
    if lacks_version(m, VER, 1) {
        return Err(refuse(codes::TYPE_OR_VERSION));
    }
    Ok(())
}

fn good_request(m: &[u8]) -> Request
    requires { Asks m.now }
    ensures { result ≡ request_in m.now }
{
    let nonc = value32(m, NONC);
    let srv = srv_in(m);
    Request { nonc, srv }
}

// The SRV value of a good request, where it has one.
fn srv_in(m: &[u8]) -> Option<[u8; 32]>
    requires { Asks m.now }
    ensures { result ≡ srv_in m.now }
{
    if has_tag(m, SRV) {
        Some(value32(m, SRV))
    } else {
        None
    }
}
