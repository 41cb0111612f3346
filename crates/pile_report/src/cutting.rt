// The cutter: 15, 19, 18, or a run at the front of the buffer.
ghost use Rattle.std.specs.Prelude.{◌≡◌, ◌+◌, ◌*◌, ◌-◌, ◌≤◌, ◌<◌, length, ℕ, Result};
ghost use Rattle.check_response.specs.declared.Window.{Window};
ghost use Rattle.pile.specs.Layout.{RECORD};
ghost use Rattle.pile.specs.Links.{linked_of};
ghost use Rattle.pile.specs.Meaning.{GoodPile, WholePile};
ghost use Rattle.pile.specs.Pile.{records_in};
ghost use Rattle.pile_runs.specs.Convict.{Convicts};
ghost use Rattle.pile_runs.specs.Spans.{Answers};
ghost use Rattle.laws.specs.Written.{written, Puts};
ghost use Rattle.pile_report.specs.Promises.{Judges};
ghost use Rattle.refusal.specs.declared.Refusal.{Refusal};
ghost use Rattle.pile_report.specs.Taking.{ConvictsIn, Takes, run_bytes, taken_number, taken_bytes};

use super::gathering::verdicts_by;
use super::linking::links_of;
use check_response::Verdict;
use octets::{put, zero};
use pile::layout::{RAND, REQUEST_LENGTH};
use pile::{RECORD, pile_code, verdict_at};
use pile_runs::Known;
use refusal::{Refusal, codes, refuse};

// Takes the shortest run that convicts by itself out of the pile, the first among equals. The buffer must be as long as
// the pile at least, whatever the length of the run.
pub fn cut_run<'a>(
    pile: &'a [u8],
    answers: &'a [u8],
    out: &mut [u8],
) -> Result<(usize, usize), Refusal>
    ensures takes { Takes pile.now answers.now (length out.old) result }
    ensures out_after { out.new ≡ written (taken_number result) (taken_bytes result pile.now) out.old }
{
    pile_code(pile, answers)?;
    if out.len() < pile.len() {
        return Err(refuse(codes::ROOM));
    }
    match run_in(pile, answers) {
        None => Err(refuse(codes::NO_CONTRADICTION)),
        Some((i, j)) => {
            put_run(pile, i, j, out);
            Ok((i, j))
        }
    }
}

// The shortest run. That the pile is good was asked by the caller.
pub fn run_in<'a>(pile: &'a [u8], answers: &'a [u8]) -> Option<(usize, usize)>
    requires { GoodPile pile.now answers.now }
    ensures { Answers (ConvictsIn pile.now answers.now) result }
{
    run_by(pile, |k| verdict_at(pile, answers, k))
}

// The shortest run, by whoever judges the records.
pub fn run_by<J: Fn(usize) -> Verdict>(pile: &[u8], judge: J) -> Option<(usize, usize)>
    requires whole { WholePile pile.now }
    requires callable { (k : ℕ) → k < records_in pile.now → J.pre judge k }
    ensures { (v : ℕ → Result Window Refusal) → Judges (J.post judge) v (records_in pile.now)
        → Answers (Convicts v (linked_of pile.now) (records_in pile.now)) result }
{
    let n = pile.len() / RECORD;
    let verdicts = verdicts_by(n, judge);
    let known = Known {
        verdicts,
        linked: links_of(pile, verdicts),
        n,
    };
    known.shortest_run()
}

// Records i to j at the front of out, the first one's rand set to zero.
pub fn put_run(pile: &[u8], i: usize, j: usize, out: &mut [u8])
    requires { (i ≤ j) × (RECORD * j + RECORD ≤ length pile.now) × (length pile.now ≤ length out.old) }
    ensures { Puts out.old 0 (run_bytes i j pile.now) out.new (RECORD * j + RECORD - RECORD * i) }
{
    let a = RECORD * i;
    let e = RECORD * j + RECORD;
    put(out, 0, &pile[a..e]);
    zero(out, RAND, REQUEST_LENGTH);
}
