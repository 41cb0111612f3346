// Runs of bytes that pass a test.
ghost use Rattle.std.specs.Prelude.{◌≡◌, ℕ, Bool};
ghost use Rattle.list_address.specs.Runs.{is_run};
ghost use Rattle.list_address.specs.Facts.{Tells};

// One byte or more, at most so many, each of which passes.
#[tactic(auto, unfolding(crate::specs::Runs::is_run, laws::specs::Pick::both))]
pub fn is_run<F: Fn(u8) -> bool>(s: &[u8], most: usize, passes: F) -> bool
    requires { F.IsAlwaysCallable passes }
    ensures { (p : ℕ → Bool) → Tells (F.post passes) p → result ≡ is_run p most s.now }
{
    if s.is_empty() || most < s.len() {
        return false;
    }
    s.iter().all(|b| passes(*b))
}
