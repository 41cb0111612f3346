// What our own Ed25519 says of a response, as bytes.
ghost use Rattle.std.specs.Prelude.{◌≡◌};
ghost use Rattle.c_evidence.specs.Signing.{tb_answers};

use check_signatures::Verified;
use pile_signed::answer_byte;

// The answers for the two signatures, as two bytes. No `From`: it may stand only in the crate of one of its two types.
pub fn answers_told(a: Verified) -> [u8; 2]
    ensures { result ≡ tb_answers a }
{
    let delegation = answer_byte(a.delegation);
    let signature = answer_byte(a.signature);
    [delegation, signature]
}
