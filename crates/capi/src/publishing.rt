// Reports in the public format, for hosts.
ghost use Rattle.std.specs.Prelude.{◌≡◌, length};
ghost use Rattle.laws.specs.Written.{written};
ghost use Rattle.report_read.specs.Entry.{entries_of};
ghost use Rattle.report_read.specs.Read.{read_of, pile_bytes};
ghost use Rattle.pile_signed.specs.OwnAnswers.{own_answers};
ghost use Rattle.c_evidence.specs.Publishing.{tb_records};
ghost use Rattle.report_text.specs.Forwarded.{pile_of};
ghost use Rattle.capi.specs.Publishing.{Tells, TellsCut};

use c_evidence::{TbForwarded, TbPublished, TbRecords};

// The records of a report's text, at the front of out.
#[unsafe(no_mangle)]
pub extern "C" fn tb_read_report(text: &[u8], out: &mut [u8]) -> TbRecords
    ensures value { result ≡ tb_records (read_of (entries_of text.now) (length out.old)) }
    ensures out_after { out.new
        ≡ written result.code (pile_bytes (entries_of text.now)) out.old }
{
    report_read::read_report(text, out).into()
}

// The text of a report, at the front of out.
#[unsafe(no_mangle)]
pub extern "C" fn tb_write_report<'a>(
    pile: &'a [u8],
    answers: &'a [u8],
    out: &mut [u8],
) -> TbPublished
    ensures { Tells pile.now answers.now out.old result out.new }
{
    report_write::write_report(pile, answers, out).into()
}

// The same with no answers lent: the signatures are verified under the keys of the records.
#[unsafe(no_mangle)]
pub extern "C" fn tb_write_signed_report(pile: &[u8], out: &mut [u8]) -> TbPublished
    ensures { Tells pile.now (own_answers pile.now) out.old result out.new }
{
    report_text::write_signed_report(pile, out).into()
}

// The text of the shortest run that convicts by itself, out of a text, at the front of out.
#[unsafe(no_mangle)]
pub extern "C" fn tb_cut_text<'a>(text: &'a [u8], answers: &'a [u8], out: &mut [u8]) -> TbForwarded
    ensures { TellsCut text.now answers.now out.old result out.new }
{
    report_text::cut_text(text, answers, out).into()
}

// The same with no answers lent.
#[unsafe(no_mangle)]
pub extern "C" fn tb_cut_signed_text(text: &[u8], out: &mut [u8]) -> TbForwarded
    ensures { TellsCut text.now (own_answers (pile_of text.now)) out.old result out.new }
{
    report_text::cut_signed_text(text, out).into()
}
