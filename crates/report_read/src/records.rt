// The record of an entry, from the places of its strings. In each function `first` is the flag of the definition
// `entry_at`: the first entry has no rand.
ghost use Rattle.std.specs.Prelude.{◌≡◌, true, ◌++◌, ◌+◌, ◌*◌, ◌≤◌, ◌<◌, length};
ghost use Rattle.laws.specs.Pasted.{pasted};
ghost use Rattle.json_strings.specs.Text.{content_at};
ghost use Rattle.base64_strict.specs.Decode.{decode64};
ghost use Rattle.json_base64.specs.Sized.{good, plain};
ghost use Rattle.report_read.specs.Entry.{entry_at};
ghost use Rattle.report_read.specs.Ready.{Writable};
ghost use Rattle.report_read.specs.Record.{record_of};
ghost use Rattle.laws.specs.Numbers.{le_bytes};
ghost use Rattle.pile.specs.Layout.{REQUEST-LENGTH, RECORD, AREA};
ghost use Rattle.pile.specs.Recording.{padded};

use super::Spot;
use json_base64::fill;
use octets::{clear, le32_bytes, put, zero};
use pile::layout::{AREA, RAND, REQUEST, REQUEST_LENGTH, ZEROS};

// The bytes that a string stands for, and zeros past them.
fn fill_part(s: &[u8], p: usize, out: &mut [u8])
    requires { (good (decode64 (content_at s.now p)) ≡ true)
        × (length (plain (decode64 (content_at s.now p))) ≤ length out.old) }
    ensures { out.new ≡ padded (length out.old) (plain (decode64 (content_at s.now p))) }
{
    clear(out);
    fill(s, p, out);
}

// The same in an area of the buffer.
fn put_part(s: &[u8], p: usize, out: &mut [u8], at: usize, n: usize)
    requires { (good (decode64 (content_at s.now p)) ≡ true)
        × ((length (plain (decode64 (content_at s.now p))) ≤ n) × (at + n ≤ length out.old)) }
    ensures { out.new ≡ pasted out.old at (padded n (plain (decode64 (content_at s.now p)))) }
{
    fill_part(s, p, &mut out[at..at + n]);
}

// The rand of an entry: zeros for the first, by the flag of `entry_at`.
fn put_rand(s: &[u8], e: Spot, first: bool, out: &mut [u8], at: usize)
    requires { Writable s.now first e × (at + 32 ≤ length out.old) }
    ensures { out.new ≡ pasted out.old at (padded 32 (entry_at s.now first e.at).rand) }
{
    if first {
        zero(out, at, at + 32);
    } else {
        put_part(s, e.rand, out, at, 32);
    }
}

// The two lengths of a record.
fn put_sizes(out: &mut [u8], at: usize, request: u32, response: u32)
    requires { at + 8 ≤ length out.old }
    ensures { out.new ≡ pasted out.old at (le_bytes 4 request ++ le_bytes 4 response) }
{
    let first = le32_bytes(request);
    let second = le32_bytes(response);
    put(out, at, &first);
    put(out, at + 4, &second);
}

// The key and the rand, by the flag of `entry_at`.
fn put_names(s: &[u8], e: Spot, first: bool, out: &mut [u8], at: usize)
    requires { Writable s.now first e × (at + REQUEST-LENGTH ≤ length out.old) }
    ensures { out.new
        ≡ pasted out.old at
        (padded 32 (entry_at s.now first e.at).key
        ++ padded 32 (entry_at s.now first e.at).rand) }
{
    put_part(s, e.key, out, at, 32);
    put_rand(s, e, first, out, at + RAND);
}

// The two areas, by the flag of `entry_at`.
fn put_packets(s: &[u8], e: Spot, first: bool, out: &mut [u8], at: usize)
    requires { Writable s.now first e × (at + 2 * AREA ≤ length out.old) }
    ensures { out.new
        ≡ pasted out.old at
        (padded AREA (entry_at s.now first e.at).request
        ++ padded AREA (entry_at s.now first e.at).response) }
{
    put_part(s, e.request, out, at, AREA);
    put_part(s, e.response, out, at + AREA, AREA);
}

// The record of a response object, by the flag of `entry_at`.
pub fn put_record(s: &[u8], e: Spot, first: bool, out: &mut [u8], at: usize)
    requires { Writable s.now first e × (at + RECORD ≤ length out.old) }
    ensures { out.new ≡ pasted out.old at (record_of (entry_at s.now first e.at)) }
{
    put_names(s, e, first, out, at);
    put_sizes(out, at + REQUEST_LENGTH, e.asked as u32, e.said as u32);
    zero(out, at + ZEROS, at + REQUEST);
    put_packets(s, e, first, out, at + REQUEST);
}
