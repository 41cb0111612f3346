// What was said of the time twice, and two verdicts, compared.
ghost use Rattle.std.specs.Prelude.{◌≡◌};
ghost use Rattle.pile_runs.specs.Clash.{clash, contradicting};

use check_response::Verdict;

// Whether what was said earlier contradicts what was said later: the one at its earliest is later than the other at its
// latest. A window is told by its MIDP and RADI, so that nobody has to make up the rest of one. The two radii are
// compared with the difference of the times, since MIDP - RADI may lie below 0 and MIDP + RADI above 2^64 - 1.
pub fn contradicts(midp: u64, radi: u32, later_midp: u64, later_radi: u32) -> bool
    ensures { result ≡ clash midp radi later_midp later_radi }
{
    if midp <= later_midp {
        return false;
    }
    let radii = radi as u64 + later_radi as u64;
    let back = midp - later_midp;
    radii < back
}

// Whether both records are valid and their windows contradict.
pub fn both_contradict(v: Verdict, w: Verdict) -> bool
    ensures { result ≡ contradicting v w }
{
    match (v, w) {
        (Ok(a), Ok(b)) => contradicts(a.midp, a.radi, b.midp, b.radi),
        _ => false,
    }
}
