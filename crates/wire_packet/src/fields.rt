// The value of a tag as what it holds: a number, 32 or 64 bytes, a list of versions.
ghost use Rattle.std.specs.Prelude.{◌≡◌, ◌≤◌, length};
ghost use Rattle.laws.specs.Numbers.{le};
ghost use Rattle.wire_message.specs.Sentences.{Good};
ghost use Rattle.wire_message.specs.Values.{value_of};
ghost use Rattle.wire_packet.specs.Versions.{lacks_version};

use octets::{copy32, le32, le64, put};
use wire_message::value_of;

// The u32 that is a tag's value.
pub fn number32(m: &[u8], tag: u32) -> u32
    requires { Good m.now × (4 ≤ length (value_of m.now tag)) }
    ensures { result ≡ le 4 (value_of m.now tag) 0 }
{
    le32(value_of(m, tag), 0)
}

// The u64 that is a tag's value.
pub fn number64(m: &[u8], tag: u32) -> u64
    requires { Good m.now × (8 ≤ length (value_of m.now tag)) }
    ensures { result ≡ le 8 (value_of m.now tag) 0 }
{
    le64(value_of(m, tag), 0)
}

// The 32 bytes that are a tag's value.
pub fn value32(m: &[u8], tag: u32) -> [u8; 32]
    requires { Good m.now × (length (value_of m.now tag) ≡ 32) }
    ensures { result ≡ value_of m.now tag }
{
    copy32(value_of(m, tag), 0)
}

// The 64 bytes that are a tag's value.
pub fn value64(m: &[u8], tag: u32) -> [u8; 64]
    requires { Good m.now × (length (value_of m.now tag) ≡ 64) }
    ensures { result ≡ value_of m.now tag }
{
    let mut out = [0u8; 64];
    put(&mut out, 0, value_of(m, tag));
    out
}

// The version x does not stand in the list that is a tag's value.
pub fn lacks_version(m: &[u8], tag: u32, x: u32) -> bool
    requires { Good m.now }
    ensures { result ≡ lacks_version (value_of m.now tag) x }
{
    lacks(value_of(m, tag), x)
}

// The same of the list itself.
pub fn lacks(v: &[u8], x: u32) -> bool
    ensures { result ≡ lacks_version v.now x }
{
    let (versions, _) = v.as_chunks::<4>();
    !versions
        .iter()
        .any(|version| u32::from_le_bytes(*version) == x)
}
