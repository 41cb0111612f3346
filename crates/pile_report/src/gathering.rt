// The verdicts on records, each judged once. Who judges is handed in: the judge with lent answers, or the one that
// verifies signatures itself.
ghost use Rattle.std.specs.Prelude.{◌≡◌, ◌≤◌, ◌<◌, ℕ, Result};
ghost use Rattle.check_response.specs.declared.Window.{Window};
ghost use Rattle.pile_report.specs.Promises.{Judges, Passes};
ghost use Rattle.pile_runs.specs.Convict.{verdict_in};
ghost use Rattle.refusal.specs.declared.Refusal.{Refusal};

use check_response::Verdict;
use refusal::{PASSED, Refusal};

// In both functions, and in `said_by`, n is a number, whose clause `most` says that the array has room: a type of its own
// for it would be made by each caller, and unpacked in each clause.

// The verdicts on n records.
pub fn verdicts_by<J: Fn(usize) -> Verdict>(n: usize, judge: J) -> [Verdict; 16]
    requires most { n ≤ 16 }
    requires callable { (k : ℕ) → k < n → J.pre judge k }
    ensures { (v : ℕ → Result Window Refusal) → Judges (J.post judge) v n
        → (k : ℕ) → k < n → verdict_in result k ≡ v k }
{
    let blank = Err(PASSED);
    let mut verdicts = [blank; 16];
    // A range: the judge is asked by number, and the array may be longer than n.
    for k in 0..n {
        let v = judge(k);
        verdicts[k] = v;
    }
    verdicts
}

// The verdicts on n records where all are valid, or the refusal and the place of the first that is not: none behind it
// is looked at.
pub fn valid_by<J: Fn(usize) -> Verdict>(
    n: usize,
    judge: J,
) -> Result<[Verdict; 16], (Refusal, usize)>
    requires most { n ≤ 16 }
    requires callable { (k : ℕ) → k < n → J.pre judge k }
    ensures { (v : ℕ → Result Window Refusal) → Judges (J.post judge) v n → Passes v n result }
{
    let blank = Err(PASSED);
    let mut verdicts = [blank; 16];
    // A range, as above.
    for k in 0..n {
        match judge(k) {
            Err(why) => {
                return Err((why, k));
            }
            Ok(window) => {
                verdicts[k] = Ok(window);
            }
        }
    }
    Ok(verdicts)
}
