// The objects of all records, and the whole text.
ghost use Rattle.std.specs.Prelude.{true, ◌≡◌, ◌≤◌, length};
ghost use Rattle.laws.specs.Pasted.{fronted};
ghost use Rattle.report_write.specs.Entries.{entries_in};
ghost use Rattle.report_write.specs.Pieces.{list_text, Piled};
ghost use Rattle.report_write.specs.Text.{json_of};

use super::OPENING;
use super::pieces::put_object;
use octets::put;
use pile::record_at;

// The objects of the first n records with commas between them, the closing bracket and brace.
fn put_list(out: &mut [u8], p: &[u8], n: usize)
    requires { Piled p.now 0 n × (length (list_text p.now true n 0) ≤ length out.old) }
    ensures { out.new ≡ fronted (list_text p.now true n 0) out.old }
{
    let last = n - 1;
    let mut at = 0;
    // A range of records: behind the last stands the bracket, and no comma.
    for k in 0..last {
        let r = record_at(p, k);
        at = put_object(out, at, &r, k == 0);
        put(out, at, b",");
        at += 1;
    }
    let r = record_at(p, last);
    let end = put_object(out, at, &r, last == 0);
    put(out, end, b"]}");
}

// The text of the first n records, at the front of out.
pub fn put_text(out: &mut [u8], p: &[u8], n: usize)
    requires { Piled p.now 0 n × (length (json_of (entries_in n p.now 0)) ≤ length out.old) }
    ensures { out.new ≡ fronted (json_of (entries_in n p.now 0)) out.old }
{
    put(out, 0, b"{\"responses\":[");
    put_list(&mut out[OPENING..], p, n);
}
