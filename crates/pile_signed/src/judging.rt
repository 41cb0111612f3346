// What is said of one record of a pile, its signatures verified under the key that stands in it.
ghost use Rattle.std.specs.Prelude.{◌≡◌, ◌+◌, ◌*◌, ◌≤◌, length};
ghost use Rattle.pile.specs.Layout.{RECORD};
ghost use Rattle.pile.specs.Pile.{key_in, response_packet};
ghost use Rattle.pile.specs.Valid.{record_checked, checked_at, nothing_at, judge_code, judgement_of};
ghost use Rattle.check_response.specs.Check.{verdict_number};
ghost use Rattle.check_signatures.specs.SignatureAnswers.{delegated, responded};
ghost use Rattle.pile_signed.specs.OwnAnswers.{own_answers};

use check_response::Checked;
use check_signatures::check_signed;
use octets::copy32;
use pile::layout::KEY;
use pile::{Judgement, RECORD, RecordBytes, judged, length_bad, record_at, refused};
use refusal::codes;

// Judges record k. Where there is none, or the pile is bad, the refusal is 15.
pub fn judge_signed(pile: &[u8], k: usize) -> Judgement
    ensures verdict_value { verdict_number result.verdict
        ≡ (judge_code pile.now (own_answers pile.now) k).code }
    ensures value { result ≡ judgement_of pile.now (own_answers pile.now) k }
{
    if nothing_at(pile, k) {
        return judged(k, refused(codes::PILE));
    }
    judged(k, checked_at(pile, k))
}

// There is no record k to judge.
fn nothing_at(pile: &[u8], k: usize) -> bool
    ensures { result ≡ nothing_at pile.now (own_answers pile.now) k }
{
    if length_bad(pile) {
        return true;
    }
    pile.len() / RECORD <= k
}

// What is said of record k, which is there, with the key beside it.
pub fn checked_at(pile: &[u8], k: usize) -> Checked
    requires { RECORD * k + RECORD ≤ length pile.now }
    ensures { result ≡ checked_at pile.now (own_answers pile.now) k }
{
    let r = record_at(pile, k);
    checked_on(&r)
}

// What is said of a record: 16 before the response is looked at.
fn checked_on(r: &RecordBytes<'_>) -> Checked
    ensures { result
        ≡ record_checked r.now.bytes.now (delegated (key_in r.now.bytes.now) (response_packet r.now.bytes.now))
        (responded (response_packet r.now.bytes.now)) }
{
    if r.is_bad() {
        return refused(codes::RECORD);
    }
    check_signed(copy32(r.bytes, KEY), r.request(), r.response())
}
