// The object of a record, piece after piece. Each function answers the index at which its piece ends.
ghost use Rattle.std.specs.Prelude.{◌≡◌, ◌+◌, ◌≤◌, length};
ghost use Rattle.base64_strict.specs.Encode.{encode64};
ghost use Rattle.laws.specs.Written.{Puts};
ghost use Rattle.report_write.specs.Entries.{entry_of};
ghost use Rattle.report_write.specs.Pieces.{piece, head_of, packets_of, object_text, Fits};

use base64_strict::encode;
use octets::put;
use pile::RecordBytes;

// Bytes in base64. list_write has these lines too: a shared function would stand in base64_strict, which has no `Puts`.
fn put_code(out: &mut [u8], at: usize, s: &[u8]) -> usize
    requires { at + length (encode64 s.now) ≤ length out.old }
    ensures { Puts out.old at (encode64 s.now) out.new result }
{
    let n = (s.len() + 2) / 3 * 4;
    encode(s, &mut out[at..at + n]);
    at + n
}

// A word, and bytes in base64.
fn put_piece(out: &mut [u8], at: usize, w: &[u8], s: &[u8]) -> usize
    requires { at + length (piece w.now s.now) ≤ length out.old }
    ensures { Puts out.old at (piece w.now s.now) out.new result }
{
    put(out, at, w);
    put_code(out, at + w.len(), s)
}

// The rand and the key; of the first object the key alone: `first` is the flag of the definition `head_of`.
fn put_head(out: &mut [u8], at: usize, r: &RecordBytes<'_>, first: bool) -> usize
    requires { at + length (head_of first (entry_of r.now.bytes.now)) ≤ length out.old }
    ensures { Puts out.old at (head_of first (entry_of r.now.bytes.now)) out.new result }
{
    if first {
        return put_piece(out, at, b"{\"publicKey\":\"", r.key());
    }
    let k = put_piece(out, at, b"{\"rand\":\"", r.rand());
    put_piece(out, k, b"\",\"publicKey\":\"", r.key())
}

// The two packets.
fn put_packets(out: &mut [u8], at: usize, r: &RecordBytes<'_>) -> usize
    requires { Fits r.now.bytes.now × (at + length (packets_of (entry_of r.now.bytes.now)) ≤ length out.old) }
    ensures { Puts out.old at (packets_of (entry_of r.now.bytes.now)) out.new result }
{
    let k = put_piece(out, at, b"\",\"request\":\"", r.request());
    put_piece(out, k, b"\",\"response\":\"", r.response())
}

// The whole object: `first` is the flag of the definition `object_text`.
pub fn put_object(out: &mut [u8], at: usize, r: &RecordBytes<'_>, first: bool) -> usize
    requires { Fits r.now.bytes.now × (at + length (object_text first (entry_of r.now.bytes.now)) ≤ length out.old) }
    ensures { Puts out.old at (object_text first (entry_of r.now.bytes.now)) out.new result }
{
    let h = put_head(out, at, r, first);
    let k = put_packets(out, h, r);
    put(out, k, b"\"}");
    k + 2
}
