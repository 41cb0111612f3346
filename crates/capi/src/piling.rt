// Piles, reports and the cutter for hosts.
ghost use Rattle.std.specs.Prelude.{◌≡◌};
ghost use Rattle.pile.specs.Pile.{pile_code};
ghost use Rattle.pile.specs.Valid.{judgement_of};
ghost use Rattle.pile.specs.Links.{linked_of, first_rand_zero};
ghost use Rattle.pile_runs.specs.Clash.{clash};
ghost use Rattle.c_evidence.specs.Piling.{tb_judged};
ghost use Rattle.capi.specs.Piling.{Checks, Cuts};

use c_evidence::{TbCut, TbJudged, TbReported};

// Code 15 of a pile and its answers, 0 where it does not apply.
#[unsafe(no_mangle)]
pub extern "C" fn tb_pile_code<'a>(pile: &'a [u8], answers: &'a [u8]) -> u32
    ensures { result ≡ (pile_code pile.now answers.now).code }
{
    match pile::pile_code(pile, answers) {
        Ok(()) => 0,
        Err(why) => c_packets::number(why),
    }
}

// What is said of the record at a place.
#[unsafe(no_mangle)]
pub extern "C" fn tb_judge<'a>(pile: &'a [u8], answers: &'a [u8], place: usize) -> TbJudged
    ensures { result ≡ tb_judged (judgement_of pile.now answers.now place) }
{
    pile::judge(pile, answers, place).into()
}

// Whether the record at a place is linked to the one before it.
#[unsafe(no_mangle)]
pub extern "C" fn tb_linked(pile: &[u8], place: usize) -> bool
    ensures { result ≡ linked_of pile.now place }
{
    pile::linked(pile, place)
}

// Whether the first record's rand is all zero.
#[unsafe(no_mangle)]
pub extern "C" fn tb_first_rand_zero(pile: &[u8]) -> bool
    ensures { result ≡ first_rand_zero pile.now }
{
    pile::first_rand_zero(pile)
}

// Whether the window of an earlier record, told by its MIDP and RADI, contradicts that of a later one.
#[unsafe(no_mangle)]
pub extern "C" fn tb_contradicts(
    earlier_midp: u64,
    earlier_radi: u32,
    later_midp: u64,
    later_radi: u32,
) -> bool
    ensures { result ≡ clash earlier_midp earlier_radi later_midp later_radi }
{
    pile_runs::contradicts(earlier_midp, earlier_radi, later_midp, later_radi)
}

// Whether a pile is a report, and the pair that it names.
#[unsafe(no_mangle)]
pub extern "C" fn tb_check_report<'a>(pile: &'a [u8], answers: &'a [u8]) -> TbReported
    ensures { Checks pile.now answers.now result }
{
    pile_report::check_report(pile, answers).into()
}

// The shortest run that convicts by itself, at the front of out.
#[unsafe(no_mangle)]
pub extern "C" fn tb_cut_run<'a>(pile: &'a [u8], answers: &'a [u8], out: &mut [u8]) -> TbCut
    ensures { Cuts pile.now answers.now out.old result out.new }
{
    pile_report::cut_run(pile, answers, out).into()
}
