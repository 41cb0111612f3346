// From text to text: the shortest run that convicts by itself.
ghost use Rattle.std.specs.Prelude.{◌≡◌, ◌+◌, ◌*◌, ◌≤◌, length, List, ℕ};
ghost use Rattle.laws.specs.Pasted.{part};
ghost use Rattle.laws.specs.Written.{written};
ghost use Rattle.pile.specs.Layout.{RECORD};
ghost use Rattle.pile.specs.Meaning.{GoodPile};
ghost use Rattle.pile_report.specs.Taking.{ConvictsIn};
ghost use Rattle.pile_runs.specs.Spans.{Answers};
ghost use Rattle.report_text.specs.Facts.{FoundIn};
ghost use Rattle.report_write.specs.Entries.{text_of};
ghost use Rattle.report_write.specs.Pieces.{Writable};
ghost use Rattle.pile_signed.specs.OwnAnswers.{own_answers};
ghost use Rattle.report_text.specs.Forwarded.{run_roomed, pile_of, CutsText, Forwards, forwarded_number, forwarded_bytes};

use super::Forwarded;
use pile::{RECORD, length_bad, pile_code};
use pile_report::run_in;
use pile_signed::signed_run;
use refusal::{codes, refuse};
use report_read::read_report;
use report_write::put_report;

// The text of records i to j, at the front of out. The rand of the first is not written, so that it need not be zero.
fn put_cut(pile: &[u8], i: usize, j: usize, out: &mut [u8]) -> Forwarded
    requires { (i ≤ j) × ((RECORD * j + RECORD ≤ length pile.now) × Writable (part (RECORD * i) (RECORD * j + RECORD) pile.now)) }
    ensures value { result ≡ run_roomed i j (text_of (part (RECORD * i) (RECORD * j + RECORD) pile.now)) (length out.old) }
    ensures out_after { out.new
        ≡ written (forwarded_number result) (text_of (part (RECORD * i) (RECORD * j + RECORD) pile.now))
        out.old }
{
    let a = RECORD * i;
    let e = RECORD * j + RECORD;
    match put_report(&pile[a..e], out) {
        Ok(n) => Ok((i, j, n)),
        Err((why, _)) => Err(why),
    }
}

// The text of the run that was found in a good pile, or 18 where none was.
fn put_found(pile: &[u8], found: Option<(usize, usize)>, out: &mut [u8]) -> Forwarded
    requires { FoundIn pile.now found }
    ensures cuts { (answers : List ℕ) → GoodPile pile.now answers → Answers (ConvictsIn pile.now answers) found
        → CutsText pile.now answers (length out.old) result }
    ensures out_after { out.new ≡ written (forwarded_number result) (forwarded_bytes result pile.now) out.old }
{
    match found {
        None => Err(refuse(codes::NO_CONTRADICTION)),
        Some((i, j)) => put_cut(pile, i, j, out),
    }
}

// The run of a pile, as text: 15, 18, 19.
fn cut_pile<'a>(pile: &'a [u8], answers: &'a [u8], out: &mut [u8]) -> Forwarded
    ensures cuts_text { CutsText pile.now answers.now (length out.old) result }
    ensures out_after { out.new ≡ written (forwarded_number result) (forwarded_bytes result pile.now) out.old }
{
    pile_code(pile, answers)?;
    put_found(pile, run_in(pile, answers), out)
}

// Reads the text, cuts the shortest run that convicts by itself out of its records, and writes that run's text. The
// pile stands in memory of this call alone.
pub fn cut_text<'a>(text: &'a [u8], answers: &'a [u8], out: &mut [u8]) -> Forwarded
    ensures forwards { Forwards text.now answers.now (length out.old) result }
    ensures out_after { out.new
        ≡ written (forwarded_number result) (forwarded_bytes result (pile_of text.now)) out.old }
{
    let mut pile = [0u8; 65536];
    match read_report(text, &mut pile) {
        Ok(n) => cut_pile(&pile[..n * RECORD], answers, out),
        Err(why) => Err(why),
    }
}

// The run of a pile, as text, with no answers lent.
fn cut_signed_pile(pile: &[u8], out: &mut [u8]) -> Forwarded
    ensures cuts_text { CutsText pile.now (own_answers pile.now) (length out.old) result }
    ensures out_after { out.new ≡ written (forwarded_number result) (forwarded_bytes result pile.now) out.old }
{
    if length_bad(pile) {
        return Err(refuse(codes::PILE));
    }
    put_found(pile, signed_run(pile), out)
}

// The same as `cut_text` with no answers lent. They differ in the one call, which writes `out`: handed in as a closure, it
// would need a contract that is longer than these lines.
pub fn cut_signed_text(text: &[u8], out: &mut [u8]) -> Forwarded
    ensures forwards { Forwards text.now (own_answers (pile_of text.now)) (length out.old) result }
    ensures out_after { out.new
        ≡ written (forwarded_number result) (forwarded_bytes result (pile_of text.now)) out.old }
{
    let mut pile = [0u8; 65536];
    match read_report(text, &mut pile) {
        Ok(n) => cut_signed_pile(&pile[..n * RECORD], out),
        Err(why) => Err(why),
    }
}
