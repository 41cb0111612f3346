// The frame of a message: its length, N, the offsets and the tags. Scans answer the place where they stop, and the bound
// where they find nothing: a number, and no Option, since it is compared with the bound, as in the definitions.
ghost use Rattle.std.specs.Prelude.{◌≡◌, ◌+◌, ◌*◌, ◌-◌, ◌<◌, ◌≤◌, length};
ghost use Rattle.wire_message.specs.Frame.{count, length_bad, count_bad, offsets_bad, tags_bad, first_bad_offset};
ghost use Rattle.wire_message.specs.Frame.{bad_offset_place, low_tag_place, frame_code};
ghost use Rattle.wire_message.specs.Scans.{first_fall};
ghost use Rattle.wire_message.specs.Sentences.{LengthGood, CountGood};
ghost use Rattle.refusal.specs.Refusal.{passes, when_at};

use octets::le32;
use refusal::{Refusal, codes, refuse_at};

// Codes 4 and 5 of a message, with the place of the first wrong word of its header.
pub fn frame_code(m: &[u8]) -> Result<(), Refusal>
    ensures { result ≡ passes (frame_code m.now) }
{
    if length_bad(m) {
        return Err(refuse_at(codes::FRAME, 0));
    }
    if count_bad(m) {
        return Err(refuse_at(codes::FRAME, 0));
    }
    offsets_code(m)?;
    tags_code(m)
}

// The length is under 4 bytes or no multiple of 4.
fn length_bad(m: &[u8]) -> bool
    ensures { result ≡ length_bad m.now }
{
    m.len() < 4 || m.len() % 4 != 0
}

// N isn't 1 to 32, or the header is too long.
fn count_bad(m: &[u8]) -> bool
    requires { LengthGood m.now }
    ensures { result ≡ count_bad m.now }
{
    let n = le32(m, 0) as usize;
    n == 0 || 32 < n || m.len() < 8 * n
}

// Code 4 at the first wrong offset.
fn offsets_code(m: &[u8]) -> Result<(), Refusal>
    requires { LengthGood m.now × CountGood m.now }
    ensures { result ≡ passes (when_at (offsets_bad m.now) 4 (bad_offset_place m.now)) }
{
    let n = le32(m, 0) as usize;
    let i = first_bad_offset(m, n);
    if i < n {
        return Err(refuse_at(codes::FRAME, 4 * i));
    }
    Ok(())
}

// Code 5 at the first tag that isn't above the one before it.
fn tags_code(m: &[u8]) -> Result<(), Refusal>
    requires { LengthGood m.now × CountGood m.now }
    ensures { result ≡ passes (when_at (tags_bad m.now) 5 (low_tag_place m.now)) }
{
    let n = le32(m, 0) as usize;
    let k = first_fall(m, 4 * n, n);
    if k < n - 1 {
        return Err(refuse_at(codes::TAG_ORDER, 4 * n + 4 * (k + 1)));
    }
    Ok(())
}

// The first i below n at which offset[i] is wrong, which offset[0] isn't; n where there is none.
fn first_bad_offset(m: &[u8], n: usize) -> usize
    requires { (n ≡ count m.now) × (0 < n) × (8 * n ≤ length m.now) }
    ensures { result ≡ first_bad_offset m.now }
{
    let section = m.len() - 8 * n;
    let mut last = 0;
    // Over places: an offset is compared with the one before it, which is carried along.
    for i in 1..n {
        let o = le32(m, 4 * i) as usize;
        if o % 4 != 0 || o < last || section < o {
            return i;
        }
        last = o;
    }
    n
}

// The first k below n - 1 at which word k + 1 of those from `at` isn't above word k; n - 1 where they all rise.
pub fn first_fall(s: &[u8], at: usize, n: usize) -> usize
    requires { (0 < n) × (at + 4 * n ≤ length s.now) }
    ensures { result ≡ first_fall s.now at n }
{
    // Over places: each word is compared with the next one, so that chunks of four bytes would not do.
    for k in 0..n - 1 {
        if le32(s, at + 4 * (k + 1)) <= le32(s, at + 4 * k) {
            return k;
        }
    }
    n - 1
}
