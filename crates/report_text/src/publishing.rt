// The writer of reports with no answers lent.
ghost use Rattle.std.specs.Prelude.{◌≡◌, length};
ghost use Rattle.laws.specs.Written.{written};
ghost use Rattle.report_write.specs.Published.{Publishes, published_number, published_bytes};
ghost use Rattle.pile_signed.specs.OwnAnswers.{own_answers};

use pile_signed::check_signed_report;
use report_write::{Published, put_report};

// The text of a report, at the front of out: what the writer that is lent answers does when it is given our own.
pub fn write_signed_report(pile: &[u8], out: &mut [u8]) -> Published
    ensures publishes { Publishes pile.now (own_answers pile.now) (length out.old) result }
    ensures out_after { out.new ≡ written (published_number result) (published_bytes result pile.now) out.old }
{
    match check_signed_report(pile) {
        Ok((_, _)) => put_report(pile, out),
        Err((why, k)) => Err((why, k)),
    }
}
