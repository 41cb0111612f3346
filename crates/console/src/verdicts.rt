// What is said of a pile: of each record what the judge says, and of the whole what the cutter says.
ghost use Rattle.std.specs.Prelude.{◌+◌, ◌≤◌, length};
ghost use Rattle.pile.specs.Pile.{records_in};
ghost use Rattle.pile_report.specs.Report.{judged};
ghost use Rattle.pile_report.specs.Taking.{Takes};
ghost use Rattle.laws.specs.Written.{Puts};
ghost use Rattle.console.specs.Text.{record_lines, records_text, verdict_text};

use console_lines::{put_labelled, put_record, put_run, put_word};
use pile::{RECORD, judge};
use pile_report::cut_run;
use refusal::{Refusal, codes};
use std::io::Print;

// The length of sixteen records, the most that a pile has.
const LONGEST: usize = 16 * RECORD;

// Tells of any pile and any answers. The page has room for sixteen records, and is written at once.
pub fn tell<'a, R: Print>(rt: &R, pile: &'a [u8], answers: &'a [u8]) -> std::io::Result<()> {
    let taken = taken_from(pile, answers);
    let mut page = [0u8; 2048];
    let n = put_verdict(pile, answers, taken, &mut page);
    rt.write_all(&page[..n])
}

// What the cutter answers. Its buffer has room for the longest pile, so that it is never short.
pub fn taken_from<'a>(pile: &'a [u8], answers: &'a [u8]) -> Result<(usize, usize), Refusal>
    ensures { Takes pile.now answers.now 65536 result }
{
    let mut run = [0u8; LONGEST];
    cut_run(pile, answers, &mut run)
}

// The whole text, where the cutter answered this. A refusal is 15 or 18: 19 it never answers, as 15 comes before.
pub fn put_verdict<'a>(
    pile: &'a [u8],
    answers: &'a [u8],
    taken: Result<(usize, usize), Refusal>,
    out: &mut [u8],
) -> usize
    requires { Takes pile.now answers.now 65536 taken × (2048 ≤ length out.old) }
    ensures { Puts out.old 0 (verdict_text pile.now answers.now taken)
        out.new result }
{
    match taken {
        Ok((first, last)) => {
            let a = put_records(pile, answers, out);
            put_run(out, a, first, last)
        }
        Err(why) => {
            if why.code == codes::NO_CONTRADICTION {
                let a = put_records(pile, answers, out);
                return put_word(out, a, b"run none\n");
            }
            put_labelled(out, 0, b"refused", why.code as u64)
        }
    }
}

// The count, and a line for each record.
fn put_records<'a>(pile: &'a [u8], answers: &'a [u8], out: &mut [u8]) -> usize
    requires { (records_in pile.now ≤ 16) × (2048 ≤ length out.old) }
    ensures puts { Puts out.old 0 (records_text pile.now answers.now)
        out.new result }
    ensures upper_bound { result ≤ 1757 }
{
    let n = pile.len() / RECORD;
    let at = put_labelled(out, 0, b"records", n as u64);
    put_lines(pile, answers, n, out, at)
}

// A line for each of the first n records.
fn put_lines<'a>(pile: &'a [u8], answers: &'a [u8], n: usize, out: &mut [u8], at: usize) -> usize
    requires { (n ≤ 16) × (at + 1728 ≤ length out.old) }
    ensures puts { Puts out.old at (record_lines (judged pile.now answers.now) n)
        out.new result }
    ensures upper_bound { result ≤ at + 1728 }
{
    let mut end = at;
    // By the place of a record, which `judge` takes: its answers stand in another slice.
    for k in 0..n {
        let j = judge(pile, answers, k);
        end = put_record(out, end, k, j.verdict);
    }
    end
}
