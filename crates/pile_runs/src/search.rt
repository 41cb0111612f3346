// The search for the run. In the shortest run that convicts, the first and the last record contradict: if only two
// others did, the run from the one to the other would be shorter and convict as well. So runs are tried by length and
// then by start, and of each only the ends are compared.
ghost use Rattle.std.specs.Prelude.{◌≤◌, min, eqb};
ghost use Rattle.pile_runs.specs.Spans.{Answers, SomePair, span_number};
ghost use Rattle.pile_runs.specs.Told.{Tells};
ghost use Rattle.pile_runs.specs.Convict.{verdict_in, flag_in, Convicts};
ghost use Rattle.pile_runs.specs.Searched.{Exposes, FirstStart};

use super::Known;
use super::compare::both_contradict;

impl Known {
    // The shortest run that convicts, and of those as short the one that starts first.
    pub fn shortest_run(&self) -> Option<(usize, usize)>
        ensures tells { Tells (eqb (span_number result) 0)
            (SomePair (Convicts (verdict_in self.now.verdicts) (flag_in self.now.linked) (min self.now.n 16))) }
        ensures answers { Answers (Convicts (verdict_in self.now.verdicts) (flag_in self.now.linked) (min self.now.n 16))
            result }
    {
        let m = self.n.min(16);
        // A range: the distance is what is sought, and no place of an array.
        for gap in 1..m {
            if let Some(first) = self.first_start(m, gap) {
                return Some((first, first + gap));
            }
        }
        None
    }

    // The first start of a clean run whose ends lie gap apart and contradict, or None where no such run ends below m.
    // The ends are compared first, since that is little work and rules most runs out.
    fn first_start(&self, m: usize, gap: usize) -> Option<usize>
        requires { (gap ≤ m) × (m ≤ 16) }
        ensures { FirstStart (Exposes (verdict_in self.now.verdicts) (flag_in self.now.linked)) m gap result }
    {
        let starts = m - gap;
        // A range: each turn reads two places, gap apart, and the place is the answer.
        for start in 0..starts {
            let end = start + gap;
            let v = self.verdicts[start];
            let w = self.verdicts[end];
            if both_contradict(v, w) {
                if self.is_clean(start, end) {
                    return Some(start);
                }
            }
        }
        None
    }
}
