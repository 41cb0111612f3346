// Looks at one run: whether it is clean.
ghost use Rattle.std.specs.Prelude.{◌≡◌, ◌&&◌, ◌≤◌, ◌<◌};
ghost use Rattle.pile_runs.specs.Told.{Tells};
ghost use Rattle.pile_runs.specs.Clash.{valid};
ghost use Rattle.pile_runs.specs.Convict.{verdict_in, flag_in, Clean};

use super::Known;

impl Known {
    // Whether each record from a to b is valid, and each after a linked.
    pub fn is_clean(&self, a: usize, b: usize) -> bool
        requires { (a ≤ b) × (b < 16) }
        ensures { Tells result (Clean (verdict_in self.now.verdicts) (flag_in self.now.linked) a b) }
    {
        self.verdicts[a].is_ok() && (a + 1..b + 1).all(|k| self.goes_on(k))
    }

    // Whether record k is valid, and linked to the one before it.
    fn goes_on(&self, k: usize) -> bool
        requires { k < 16 }
        ensures { result ≡ (valid (verdict_in self.now.verdicts k) && flag_in self.now.linked k) }
    {
        self.verdicts[k].is_ok() && self.linked[k]
    }
}
