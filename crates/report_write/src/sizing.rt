// How long a text will be. It is known before a byte is written, so that nothing is where the buffer is too short.
ghost use Rattle.std.specs.Prelude.{◌≡◌, ◌≤◌, length};
ghost use Rattle.report_write.specs.Entries.{entry_of, entries_in};
ghost use Rattle.report_write.specs.Pieces.{object_text, Fits, Piled};
ghost use Rattle.report_write.specs.Text.{json_of};

use super::{CLOSING, OPENING};
use pile::{RecordBytes, record_at};

// What is fixed in the first object, {"publicKey":"","request":"","response":""} with 44 characters of its key,
const FIRST: usize = 87;

// and in a later one, which has "rand":"", with 44 more of its rand besides.
const LATER: usize = 141;

// The length of a record's object: what is fixed in it, and its two packets in base64. `first` is the flag of the
// definition `object_text`: the object of the first record has no rand.
fn object_size(r: &RecordBytes<'_>, first: bool) -> usize
    requires { Fits r.now.bytes.now }
    ensures { (result ≡ length (object_text first (entry_of r.now.bytes.now))) × (result ≤ 5477) }
{
    let q = (r.request().len() + 2) / 3 * 4;
    let a = (r.response().len() + 2) / 3 * 4;
    if first {
        return FIRST + q + a;
    }
    LATER + q + a
}

// The length of the text of the first n records.
pub fn text_size(p: &[u8], n: usize) -> usize
    requires { Piled p.now 0 n × (n ≤ 16) }
    ensures { result ≡ length (json_of (entries_in n p.now 0)) }
{
    let last = n - 1;
    let mut size = OPENING;
    // A range of records: behind the last stands no comma.
    for k in 0..last {
        let r = record_at(p, k);
        size += object_size(&r, k == 0) + 1;
    }
    let r = record_at(p, last);
    size + object_size(&r, last == 0) + CLOSING
}
