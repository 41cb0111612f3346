// Code 15: whether a pile and its answers are what they must be before any record is looked at.
ghost use Rattle.std.specs.Prelude.{◌≡◌};
ghost use Rattle.pile.specs.Pile.{length_bad, answer_bad, pile_bad, pile_code};
ghost use Rattle.refusal.specs.Refusal.{passes};

use super::layout::RECORD;
use refusal::{Refusal, codes, refuse};

// Code 15 of a pile and its answers.
pub fn pile_code<'a>(pile: &'a [u8], answers: &'a [u8]) -> Result<(), Refusal>
    ensures { result ≡ passes (pile_code pile.now answers.now) }
{
    if pile_bad(pile, answers) {
        return Err(refuse(codes::PILE));
    }
    Ok(())
}

// The pile is not 1 to 16 whole records, or its answers are not two a record, each 0 or 1.
#[tactic(auto, unfolding(crate::specs::Pile::pile_bad, laws::specs::Any::any))]
pub fn pile_bad<'a>(pile: &'a [u8], answers: &'a [u8]) -> bool
    ensures { result ≡ pile_bad pile.now answers.now }
{
    length_bad(pile) || answers.len() != 2 * (pile.len() / RECORD) || answer_bad(answers)
}

// The pile is not 1 to 16 whole records.
#[tactic(auto, unfolding(crate::specs::Pile::length_bad, laws::specs::Any::any))]
pub fn length_bad(pile: &[u8]) -> bool
    ensures { result ≡ length_bad pile.now }
{
    let n = pile.len() / RECORD;
    pile.len() % RECORD != 0 || n < 1 || 16 < n
}

// An answer byte is neither yes nor no.
fn answer_bad(answers: &[u8]) -> bool
    ensures { result ≡ answer_bad answers.now }
{
    answers.iter().any(|answer| 1 < *answer)
}
