// The eighty rounds on a block of zeros. All words of its schedule are 0, so that none has to be worked out.
ghost use Rattle.std.specs.Prelude.{◌≡◌, replicate};
ghost use Rattle.sha512_block.specs.Rounds.{rounds};

use super::Regs;
use super::rounding::sixteen_rounds;

// All the rounds. It stays a function in the machine code too: within the loop over the blocks the
// working variables would not all find a register.
#[inline(never)]
pub fn quiet_rounds(s: Regs) -> Regs
    ensures { result ≡ rounds (replicate 80 0) s 80 }
{
    let words = [0; 16];
    let mut x = s;
    // over their numbers: a run takes the place of its first round
    for run in 0..5 {
        x = sixteen_rounds(x, &words, 16 * run);
    }
    x
}
