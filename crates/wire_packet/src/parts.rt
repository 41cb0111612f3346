// The parts of a response that a host verifies by itself, read by their tags.
ghost use Rattle.std.specs.Prelude.{◌≡◌};
ghost use Rattle.wire_packet.specs.Facts.{Shaped};
ghost use Rattle.wire_packet.specs.Parts.{parts_in, parts_of};

use super::SignedParts;
use super::fields::{value32, value64};
use super::packet::body_of;
use super::responses::signed_code;
use super::shape::dele_of;
use refusal::Refusal;
use wire_message::tags::{CERT, PUBK, SIG};
use wire_message::value_of;

// Reads the signatures and the delegated key of a response packet; refused with codes 1 to 7, as the signed texts are.
pub fn read_signed_parts(p: &[u8]) -> Result<SignedParts, Refusal>
    ensures { result ≡ parts_of p.now }
{
    signed_code(p)?;
    Ok(shaped_parts(body_of(p)))
}

fn shaped_parts(m: &[u8]) -> SignedParts
    requires { Shaped m.now }
    ensures { result ≡ parts_in m.now }
{
    let signature = value64(m, SIG);
    let delegation = value64(value_of(m, CERT), SIG);
    let pubk = value32(dele_of(m), PUBK);
    SignedParts {
        signature: signature,
        delegation: delegation,
        pubk: pubk,
    }
}
