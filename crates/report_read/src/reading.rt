// A report's text, read into records.
ghost use Rattle.std.specs.Prelude.{◌≡◌, true, false, ◌+◌, ◌*◌, ◌≤◌, ◌<◌, length};
ghost use Rattle.laws.specs.Pasted.{fronted};
ghost use Rattle.pile.specs.Layout.{RECORD};
ghost use Rattle.report_read.specs.Entry.{entries_of};
ghost use Rattle.report_read.specs.Ready.{Told};
ghost use Rattle.report_read.specs.Read.{read_of, read_number, pile_bytes};
ghost use Rattle.laws.specs.Written.{written};

use super::Spot;
use super::records::put_record;
use super::reports::report;
use pile::RECORD;
use refusal::{Refusal, codes, refuse};

// The records of all n entries, of the 16 that are kept.
fn put_all(s: &[u8], n: usize, spots: [Spot; 16], out: &mut [u8])
    requires { Told s.now n false spots × ((n ≤ 16) × (n * RECORD ≤ length out.old)) }
    ensures { out.new ≡ fronted (pile_bytes (entries_of s.now)) out.old }
{
    // A range: the number is that of the entry and of its record.
    for i in 0..n {
        let e = spots[i];
        put_record(s, e, i == 0, out, i * RECORD);
    }
}

// The records of a report's text, at the front of out. 24 is judged of every entry first, past the 16th too.
pub fn read_report(text: &[u8], out: &mut [u8]) -> Result<usize, Refusal>
    ensures value { result ≡ read_of (entries_of text.now) (length out.old) }
    ensures out_after { out.new ≡ written (read_number result) (pile_bytes (entries_of text.now)) out.old }
{
    let Some(r) = report(text) else {
        return Err(refuse(codes::REPORT_TEXT));
    };
    let n = r.n;
    if n == 0 {
        return Err(refuse(codes::ENTRIES));
    }
    if 16 < n {
        return Err(refuse(codes::ENTRIES));
    }
    if r.big {
        return Err(refuse(codes::ENTRIES));
    }
    if out.len() < n * RECORD {
        return Err(refuse(codes::ROOM));
    }
    let spots = r.spots;
    put_all(text, n, spots, out);
    Ok(n)
}
