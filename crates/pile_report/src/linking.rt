// Which records are linked. A link is hashed only where what is said hangs on it.
ghost use Rattle.std.specs.Prelude.{◌≡◌, ◌&&◌, ℕ, ◌<◌};
ghost use Rattle.pile.specs.Links.{linked_of};
ghost use Rattle.pile_runs.specs.Clash.{valid};
ghost use Rattle.pile_runs.specs.Convict.{verdict_in, flag_in};
ghost use Rattle.pile_report.specs.Promises.{FirstAt, between};
ghost use Rattle.pile_report.specs.Report.{joined, loose};

use check_response::Verdict;
use pile::{first_rand_zero, linked};

// The first of n records that 17 is about. No link behind it is hashed.
pub fn first_loose(pile: &[u8], n: usize) -> Option<usize>
    ensures { FirstAt (loose (joined pile.now)) n result }
{
    (0..n).find(|k| !joined_at(pile, *k))
}

// Record k is linked, and of the first its rand is zero.
fn joined_at(pile: &[u8], k: usize) -> bool
    ensures { result ≡ joined pile.now k }
{
    if k == 0 {
        return first_rand_zero(pile);
    }
    linked(pile, k)
}

// Of each record, whether it is linked to the one before it, where both are valid. No run holds others, and so their
// links are not hashed.
pub fn links_of(pile: &[u8], verdicts: [Verdict; 16]) -> [bool; 16]
    ensures { (k : ℕ) → k < 16 → flag_in result k ≡ between (verdict_in verdicts) (linked_of pile.now) k }
{
    let mut links = [false; 16];
    // A range: each turn reads two places of one array, and writes one of the other.
    for k in 1..16 {
        let before = verdicts[k - 1];
        let v = verdicts[k];
        links[k] = link_at(pile, before, v, k);
    }
    links
}

// The link of record k, by the verdicts on the one before it and on itself. These are taken out of the array by the
// caller, so that the array is not copied for each record.
fn link_at(pile: &[u8], before: Verdict, v: Verdict, k: usize) -> bool
    ensures { result ≡ (valid before && (valid v && linked_of pile.now k)) }
{
    before.is_ok() && v.is_ok() && linked(pile, k)
}
