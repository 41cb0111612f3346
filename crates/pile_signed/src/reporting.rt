// The check of a report with no answers lent.
ghost use Rattle.pile_report.specs.Report.{Reports};
ghost use Rattle.pile_signed.specs.OwnAnswers.{own_answers};

use super::judging::checked_at;
use pile::{RECORD, length_bad};
use pile_report::{Report, said_by};
use refusal::{codes, refuse};

// Whether the pile is a report, and the pair that it names. Behind a record that is refused nothing is verified.
pub fn check_signed_report(pile: &[u8]) -> Report
    ensures { Reports pile.now (own_answers pile.now) result }
{
    if length_bad(pile) {
        return Err((refuse(codes::PILE), 0));
    }
    let n = pile.len() / RECORD;
    said_by(pile, n, |k| checked_at(pile, k).verdict)
}
