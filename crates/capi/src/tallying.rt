// Contradiction in one pass, for hosts. The state is a number of the host's memory.
ghost use Rattle.std.specs.Prelude.{◌≡◌, []};
ghost use Rattle.pile_tally.specs.EveryPair.{contradiction_code};
ghost use Rattle.pile_tally.specs.Kept.{tally_of, tallied_of};
ghost use Rattle.capi.specs.Tallying.{keeping, answering};

use pile_tally::Tally;

// The state before any window.
#[unsafe(no_mangle)]
pub extern "C" fn tb_tally_start_field(most: &mut u64)
    ensures { keeping most.new ≡ tally_of [] }
{
    let t = pile_tally::start();
    *most = t.most;
}

// One window more: whether it contradicts an earlier one.
#[unsafe(no_mangle)]
pub extern "C" fn tb_tally_take_field(most: &mut u64, midp: u64, radi: u32) -> bool
    ensures { answering most.new result ≡ tallied_of (keeping most.old) midp radi }
{
    let t = pile_tally::take_window(Tally { most: *most }, midp, radi);
    let kept = t.tally;
    *most = kept.most;
    t.contradicts
}

// Whether two valid records of a pile contradict: 0, 15 or 18.
// Alike with `tb_pile_code` but for the call: C names both.
#[unsafe(no_mangle)]
pub extern "C" fn tb_pile_contradicts<'a>(pile: &'a [u8], answers: &'a [u8]) -> u32
    ensures { result ≡ (contradiction_code pile.now answers.now).code }
{
    match pile_tally::pile_contradicts(pile, answers) {
        Ok(()) => 0,
        Err(why) => c_packets::number(why),
    }
}
