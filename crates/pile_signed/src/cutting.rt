// The cutter with no answers lent: 15, 19, 18, or a run at the front of the buffer. It differs from the one with answers
// in what 15 is and in who judges; what is the same work, the search and the writing, is called from there.
ghost use Rattle.std.specs.Prelude.{◌≡◌, length};
ghost use Rattle.laws.specs.Written.{written};
ghost use Rattle.pile.specs.Meaning.{WholePile};
ghost use Rattle.pile_runs.specs.Spans.{Answers};
ghost use Rattle.pile_report.specs.Taking.{ConvictsIn, Takes, taken_number, taken_bytes};
ghost use Rattle.pile_signed.specs.OwnAnswers.{own_answers};

use super::judging::checked_at;
use pile::length_bad;
use pile_report::{put_run, run_by};
use refusal::{Refusal, codes, refuse};

// Takes the shortest run that convicts by itself out of the pile, the first among equals. The buffer must be as long as
// the pile at least, whatever the length of the run.
pub fn cut_signed_run(pile: &[u8], out: &mut [u8]) -> Result<(usize, usize), Refusal>
    ensures takes { Takes pile.now (own_answers pile.now) (length out.old) result }
    ensures out_after { out.new ≡ written (taken_number result) (taken_bytes result pile.now) out.old }
{
    let bad = length_bad(pile);
    let short = out.len() < pile.len();
    if bad {
        return Err(refuse(codes::PILE));
    }
    if short {
        return Err(refuse(codes::ROOM));
    }
    match signed_run(pile) {
        None => Err(refuse(codes::NO_CONTRADICTION)),
        Some((i, j)) => {
            put_run(pile, i, j, out);
            Ok((i, j))
        }
    }
}

// The shortest run. That the pile is whole was asked by the caller.
pub fn signed_run(pile: &[u8]) -> Option<(usize, usize)>
    requires { WholePile pile.now }
    ensures { Answers (ConvictsIn pile.now (own_answers pile.now)) result }
{
    run_by(pile, |k| checked_at(pile, k).verdict)
}
