// The check of many windows in one pass: of the verdicts on records, and of a pile.
ghost use Rattle.std.specs.Prelude.{◌≡◌, length};
ghost use Rattle.pile_runs.specs.Convict.{verdict_in};
ghost use Rattle.pile_tally.specs.EveryPair.{every_pair, contradiction_code};
ghost use Rattle.pile_tally.specs.Kept.{tallied};
ghost use Rattle.refusal.specs.Refusal.{passes};

use super::keeping::{start, take_window};
use super::{Tallied, Tally};
use check_response::Verdict;
use pile::{RECORD, pile_code, verdict_at};
use pile_report::verdicts_by;
use refusal::{Refusal, codes, refuse};

// Whether two of the records are valid and contradict.
pub fn any_contradiction(verdicts: &[Verdict]) -> bool
    ensures { result ≡ every_pair (verdict_in verdicts.now) (length verdicts.now) }
{
    let mut tally = start();
    for verdict in verdicts {
        let next = take_verdict(tally, *verdict);
        if next.contradicts {
            return true;
        }
        tally = next.tally;
    }
    false
}

// One record more. A refused one is passed over.
fn take_verdict(tally: Tally, v: Verdict) -> Tallied
    ensures { result ≡ tallied tally v }
{
    match v {
        Ok(w) => take_window(tally, w.midp, w.radi),
        Err(_) => Tallied {
            tally: tally,
            contradicts: false,
        },
    }
}

// Whether two valid records of a pile contradict: Ok where they do, 15 where the pile or its answers are bad, and 18
// where no two do. Links and rands play no part.
pub fn pile_contradicts<'a>(pile: &'a [u8], answers: &'a [u8]) -> Result<(), Refusal>
    ensures { result ≡ passes (contradiction_code pile.now answers.now) }
{
    pile_code(pile, answers)?;
    let n = pile.len() / RECORD;
    let verdicts = verdicts_by(n, |k| verdict_at(pile, answers, k));
    if any_contradiction(&verdicts[..n]) {
        return Ok(());
    }
    Err(refuse(codes::NO_CONTRADICTION))
}
