// The value of a tag, in a message whose frame is good. Nothing is read at a fixed place.
ghost use Rattle.std.specs.Prelude.{◌≡◌, ◌+◌, ◌*◌, ◌-◌, ◌<◌, ◌≤◌};
ghost use Rattle.wire_message.specs.Frame.{count, tag_at, edge};
ghost use Rattle.wire_message.specs.Sentences.{Good};
ghost use Rattle.wire_message.specs.Values.{index_of, has, value_of, value_start};

use octets::le32;

// The value of a tag, as a part of the message; the empty part where the tag is absent.
pub fn value_of(m: &[u8], tag: u32) -> &[u8]
    requires { Good m.now }
    ensures { result.now ≡ value_of m.now tag }
{
    let n = le32(m, 0) as usize;
    let k = index_of(m, tag);
    if k < n {
        let a = 8 * n + edge_at(m, k);
        let e = 8 * n + edge_at(m, k + 1);
        &m[a..e]
    } else {
        &m[..0]
    }
}

pub fn has_tag(m: &[u8], tag: u32) -> bool
    requires { Good m.now }
    ensures { result ≡ has m.now tag }
{
    let n = le32(m, 0) as usize;
    index_of(m, tag) < n
}

// Where the value of a tag starts in the message; the message's end where the tag is absent.
pub fn value_start(m: &[u8], tag: u32) -> usize
    requires { Good m.now }
    ensures { result ≡ value_start m.now tag }
{
    let n = le32(m, 0) as usize;
    let k = index_of(m, tag);
    8 * n + edge_at(m, k)
}

// The place of a tag among the tags of a message, and their number where it is absent: no Option, since `value_start`
// goes on with that number, whose edge is the message's end.
fn index_of(m: &[u8], tag: u32) -> usize
    requires { Good m.now }
    ensures { result ≡ index_of m.now tag }
{
    let n = le32(m, 0) as usize;
    (0..n).position(|k| tag_at(m, k) == tag).unwrap_or(n)
}

// Tag k of a message of n tags.
fn tag_at(m: &[u8], k: usize) -> u32
    requires { Good m.now × (k < count m.now) }
    ensures { result ≡ tag_at m.now k }
{
    let n = le32(m, 0) as usize;
    le32(m, 4 * n + 4 * k)
}

// Where value k begins in the value section; of k = N, where the last one ends.
fn edge_at(m: &[u8], k: usize) -> usize
    requires { Good m.now × (k ≤ count m.now) }
    ensures { result ≡ edge m.now k }
{
    if k == 0 {
        return 0;
    }
    let n = le32(m, 0) as usize;
    if k < n {
        le32(m, 4 * k) as usize
    } else {
        m.len() - 8 * n
    }
}
