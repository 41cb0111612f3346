// The two signatures of a response, verified. Their texts are hashed in two parts, the context and the value as it
// stands in the packet, so that neither is copied.
ghost use Rattle.std.specs.Prelude.{◌≡◌, ◌++◌};
ghost use Rattle.ed25519.specs.Verification.{verifies};
ghost use Rattle.wire_message.specs.Tags.{SIG, PUBK};
ghost use Rattle.wire_message.specs.Values.{value_of};
ghost use Rattle.refusal.specs.Refusal.{passes};
ghost use Rattle.check_response.specs.Check.{answers_code};
ghost use Rattle.wire_packet.specs.Facts.{Shaped};
ghost use Rattle.wire_packet.specs.Response.{srep, cert, dele};
ghost use Rattle.wire_request.specs.Texts.{delegation_context, response_context};
ghost use Rattle.check_signatures.specs.SignatureAnswers.{answers_of};

use super::Verified;
use ed25519::verify_parts;
use refusal::{Refusal, codes, refuse};
use wire_message::tags::{CERT, PUBK, SIG, SREP};
use wire_message::value_of;
use wire_packet::packet::body_of;
use wire_packet::{dele_of, signed_code};
use wire_request::{DELEGATION, RESPONSE};

// What our Ed25519 says of the two signatures of a response packet, under the server's long-term key. Both are no where
// one of the codes 1 to 7 applies to the packet.
pub fn answers(key: [u8; 32], response: &[u8]) -> Verified
    ensures { result ≡ answers_of key response.now }
{
    match signed_code(response) {
        Err(_) => Verified {
            delegation: false,
            signature: false,
        },
        Ok(()) => {
            let m = body_of(response);
            Verified {
                delegation: delegation_verifies(key, m),
                signature: response_verifies(m),
            }
        }
    }
}

// Codes 12 and 13 of a response's message. Where the delegation does not verify, the response is not asked.
pub fn signature_code(key: [u8; 32], m: &[u8]) -> Result<(), Refusal>
    requires { Shaped m.now }
    ensures { result
        ≡ passes
        (answers_code (verifies key (delegation_context ++ dele m.now) (value_of (cert m.now) SIG))
        (verifies (value_of (dele m.now) PUBK) (response_context ++ srep m.now)
        (value_of m.now SIG))) }
{
    if !delegation_verifies(key, m) {
        return Err(refuse(codes::DELEGATION));
    }
    if !response_verifies(m) {
        return Err(refuse(codes::SIGNATURE));
    }
    Ok(())
}

// CERT's SIG verifies under the long-term key.
pub fn delegation_verifies(key: [u8; 32], m: &[u8]) -> bool
    requires { Shaped m.now }
    ensures { result
        ≡ verifies key (delegation_context ++ dele m.now) (value_of (cert m.now) SIG) }
{
    let signature = value_of(value_of(m, CERT), SIG);
    verify_parts(&key, &DELEGATION, dele_of(m), signature)
}

// The response's SIG verifies under the PUBK of its DELE.
pub fn response_verifies(m: &[u8]) -> bool
    requires { Shaped m.now }
    ensures { result
        ≡ verifies (value_of (dele m.now) PUBK) (response_context ++ srep m.now)
        (value_of m.now SIG) }
{
    let key = value_of(dele_of(m), PUBK);
    verify_parts(key, &RESPONSE, value_of(m, SREP), value_of(m, SIG))
}
