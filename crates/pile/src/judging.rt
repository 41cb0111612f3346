// What is said of one record of a pile: 16, 14, 1 to 13, or its window and its key.
ghost use Rattle.std.specs.Prelude.{◌≡◌, ◌+◌, ◌*◌, ◌≤◌, ◌<◌, length};
ghost use Rattle.pile.specs.Layout.{RECORD};
ghost use Rattle.pile.specs.Pile.{said_yes};
ghost use Rattle.pile.specs.Valid.{refused_by, record_checked, judged_at, checked_at, nothing_at, judge_code};
ghost use Rattle.pile.specs.Valid.{judged_by, judgement_of};
ghost use Rattle.check_response.specs.Check.{verdict_number};

use super::Judgement;
use super::layout::RECORD;
use super::piles::pile_bad;
use super::records::{RecordBytes, record_at};
use check_response::{Checked, Verdict, check_response};
use refusal::{codes, refuse};

// Judges record k. Where there is none, or the pile or its answers are bad, the refusal is 15.
pub fn judge<'a>(pile: &'a [u8], answers: &'a [u8], k: usize) -> Judgement
    ensures verdict_value { verdict_number result.verdict ≡ (judge_code pile.now answers.now k).code }
    ensures value { result ≡ judgement_of pile.now answers.now k }
{
    if nothing_at(pile, answers, k) {
        return judged(k, refused(codes::PILE));
    }
    judged(k, checked_at(pile, answers, k))
}

// The judgement on record k, of which c is said.
pub fn judged(k: usize, c: Checked) -> Judgement
    ensures { result ≡ judged_by k c }
{
    let pubk = c.pubk;
    Judgement {
        place: k,
        verdict: c.verdict,
        pubk,
    }
}

// What is said where a code refuses before the response is looked at.
pub fn refused(code: u8) -> Checked
    ensures { result ≡ refused_by code }
{
    Checked {
        verdict: Err(refuse(code)),
        pubk: [0u8; 32],
    }
}

// There is no record k to judge.
#[tactic(auto, unfolding(crate::specs::Valid::nothing_at, laws::specs::Any::any))]
fn nothing_at<'a>(pile: &'a [u8], answers: &'a [u8], k: usize) -> bool
    ensures { result ≡ nothing_at pile.now answers.now k }
{
    pile_bad(pile, answers) || pile.len() / RECORD <= k
}

// The verdict on record k, which is there with its two answers.
pub fn verdict_at<'a>(pile: &'a [u8], answers: &'a [u8], k: usize) -> Verdict
    requires { (RECORD * k + RECORD ≤ length pile.now) × (2 * k + 2 ≤ length answers.now) }
    ensures { result ≡ judged_at pile.now answers.now k }
{
    checked_at(pile, answers, k).verdict
}

// The same with the key beside it.
fn checked_at<'a>(pile: &'a [u8], answers: &'a [u8], k: usize) -> Checked
    requires { (RECORD * k + RECORD ≤ length pile.now) × (2 * k + 2 ≤ length answers.now) }
    ensures { result ≡ checked_at pile.now answers.now k }
{
    let delegation = said_yes(answers, 2 * k);
    let signature = said_yes(answers, 2 * k + 1);
    let r = record_at(pile, k);
    checked_on(&r, delegation, signature)
}

// What is said of a record: 16 before the response is looked at.
// The two answers are what `check_response` asks, which C is told of: they pick no step here.
fn checked_on(r: &RecordBytes<'_>, delegation: bool, signature: bool) -> Checked
    ensures { result ≡ record_checked r.now.bytes.now delegation signature }
{
    if r.is_bad() {
        return refused(codes::RECORD);
    }
    check_response(r.request(), r.response(), delegation, signature)
}

// Answer i is yes.
#[tactic(auto, unfolding(crate::specs::Pile::said_yes))]
fn said_yes(answers: &[u8], i: usize) -> bool
    requires { i < length answers.now }
    ensures { result ≡ said_yes answers.now i }
{
    answers[i] == 1
}
