// The check of a report: 15; then the first record that is refused; then the first that is not linked; then the pair
// that contradicts.
ghost use Rattle.std.specs.Prelude.{◌≤◌, ◌<◌, ℕ, Result};
ghost use Rattle.check_response.specs.declared.Window.{Window};
ghost use Rattle.pile_report.specs.Promises.{Judges};
ghost use Rattle.pile_report.specs.Report.{joined, Says, Reports};
ghost use Rattle.refusal.specs.declared.Refusal.{Refusal};

use super::Report;
use super::gathering::valid_by;
use super::linking::first_loose;
use check_response::Verdict;
use pile::{RECORD, pile_code, verdict_at};
use pile_runs::Known;
use refusal::{codes, refuse};

// Whether the pile is a report, and the pair that it names. Behind a record that is refused nothing is looked at.
pub fn check_report<'a>(pile: &'a [u8], answers: &'a [u8]) -> Report
    ensures { Reports pile.now answers.now result }
{
    match pile_code(pile, answers) {
        Err(why) => Err((why, 0)),
        Ok(()) => said_by(pile, pile.len() / RECORD, |k| verdict_at(pile, answers, k)),
    }
}

// The same of the first n records, by whoever judges them. Links are hashed only where no record is refused. Where all
// are linked, too, the two ends of the shortest run are the pair.
pub fn said_by<J: Fn(usize) -> Verdict>(pile: &[u8], n: usize, judge: J) -> Report
    requires most { n ≤ 16 }
    requires callable { (k : ℕ) → k < n → J.pre judge k }
    ensures { (v : ℕ → Result Window Refusal) → Judges (J.post judge) v n
        → Says v (joined pile.now) n result }
{
    let verdicts = valid_by(n, judge)?;
    if let Some(k) = first_loose(pile, n) {
        return Err((refuse(codes::LINK), k));
    }
    let known = Known {
        verdicts,
        linked: [true; 16],
        n,
    };
    known
        .shortest_run()
        .ok_or((refuse(codes::NO_CONTRADICTION), 0))
}
