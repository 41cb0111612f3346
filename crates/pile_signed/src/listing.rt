// The answers that our own Ed25519 gives for a pile, as bytes.
ghost use Rattle.std.specs.Prelude.{◌≡◌, ◌*◌, length, take};
ghost use Rattle.laws.specs.Written.{written};
ghost use Rattle.pile.specs.Layout.{RECORD};
ghost use Rattle.pile.specs.Meaning.{WholePile};
ghost use Rattle.pile.specs.Pile.{records_in, key_in, response_packet, length_bad};
ghost use Rattle.refusal.specs.Refusal.{when};
ghost use Rattle.wire_request.specs.Answered.{wrote_number, answered};
ghost use Rattle.check_signatures.specs.SignatureAnswers.{answers_of};
ghost use Rattle.pile_signed.specs.OwnAnswers.{answer_byte, own_answers};

use check_signatures::{Verified, answers};
use octets::{copy32, put};
use pile::layout::{AREA, KEY};
use pile::{RECORD, RecordBytes, length_bad, record_at};
use refusal::{Refusal, codes, refuse};

// Two bytes a record at the front of out, 1 for yes and 0 for no. It is refused with 15 where the pile is not 1 to 16
// whole records, and then with 19 where out is too short.
pub fn pile_answers(pile: &[u8], out: &mut [u8]) -> Result<usize, Refusal>
    ensures value { result
        ≡ answered (when (length_bad pile.now) 15) (own_answers pile.now) out.old }
    ensures out_after { out.new
        ≡ written (wrote_number result) (own_answers pile.now) out.old }
{
    if length_bad(pile) {
        return Err(refuse(codes::PILE));
    }
    let n = 2 * (pile.len() / RECORD);
    if out.len() < n {
        return Err(refuse(codes::ROOM));
    }
    let bytes = answer_bytes(pile);
    put(out, 0, &bytes[..n]);
    Ok(n)
}

// The answers of all records, and zeros behind them.
fn answer_bytes(pile: &[u8]) -> [u8; 32]
    requires { WholePile pile.now }
    ensures { (length result ≡ 32)
        × (take (2 * records_in pile.now) result ≡ own_answers pile.now) }
{
    let mut bytes = [0u8; 32];
    let n = pile.len() / RECORD;
    // A range: each turn takes one record, and writes two places.
    for k in 0..n {
        let r = record_at(pile, k);
        let a = answers_in(&r);
        bytes[2 * k] = answer_byte(a.delegation);
        bytes[2 * k + 1] = answer_byte(a.signature);
    }
    bytes
}

// An answer as a byte: 1 for yes, 0 for no. It is what is told, and picks no step.
pub fn answer_byte(answer: bool) -> u8
    ensures { result ≡ answer_byte answer }
{
    u8::from(answer)
}

// The answers of a record, by its own key and its response. A length above 2,000 leaves the whole area as the response.
fn answers_in(r: &RecordBytes<'_>) -> Verified
    ensures { result ≡ answers_of (key_in r.now.bytes.now) (response_packet r.now.bytes.now) }
{
    if AREA < r.response_length() {
        return answers(copy32(r.bytes, KEY), r.response_area());
    }
    answers(copy32(r.bytes, KEY), r.response())
}
