// The text of a pile that the check of a report accepts, or that check's refusal; then 19.
ghost use Rattle.std.specs.Prelude.{◌≡◌, length};
ghost use Rattle.laws.specs.Written.{written};
ghost use Rattle.report_write.specs.Entries.{text_of};
ghost use Rattle.report_write.specs.Pieces.{Writable};
ghost use Rattle.report_write.specs.Published.{roomed, Publishes, published_number, published_bytes};

use super::Published;
use super::listing::put_text;
use super::sizing::text_size;
use pile::RECORD;
use pile_report::check_report;
use refusal::{codes, refuse};

// The text of a pile, at the front of out, where its records can be written at all: what is done once a check has
// accepted it, whoever said whether its signatures verify.
pub fn put_report(pile: &[u8], out: &mut [u8]) -> Published
    requires { Writable pile.now }
    ensures value { result ≡ roomed (text_of pile.now) (length out.old) }
    ensures out_after { out.new ≡ written (published_number result) (text_of pile.now) out.old }
{
    let n = pile.len() / RECORD;
    let size = text_size(pile, n);
    if out.len() < size {
        return Err((refuse(codes::ROOM), 0));
    }
    put_text(out, pile, n);
    Ok(size)
}

// The text of a report, at the front of out.
pub fn write_report<'a>(pile: &'a [u8], answers: &'a [u8], out: &mut [u8]) -> Published
    ensures publishes { Publishes pile.now answers.now (length out.old) result }
    ensures out_after { out.new ≡ written (published_number result) (published_bytes result pile.now) out.old }
{
    match check_report(pile, answers) {
        Ok((_, _)) => put_report(pile, out),
        Err((why, k)) => Err((why, k)),
    }
}
