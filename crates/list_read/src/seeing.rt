// What is seen of a server object.
ghost use Rattle.std.specs.Prelude.{◌≡◌, ◌<◌};
ghost use Rattle.report_read.specs.Entry.{list_of};
ghost use Rattle.list_read.specs.Facts.{counted_in, may_ask, seen_by, seen_of};

use super::addresses::addresses_in;
use super::texts::has_text;
use super::values::{array_place, is_word, key_size, string_place};
use super::versions::{is_integer, is_ours};
use super::{IN_SERVER, Seen, ServerParts};
use json_tokens::byte;
use json_values::{Found, members};

// How many addresses a member has, if it is a list and each is good.
fn addresses_of(s: &[u8], f: Found) -> Option<usize>
    ensures { result ≡ counted_in s.now (list_of s.now f) }
{
    addresses_in(s, array_place(s, f)?)
}

// We can ask a server of this version, with a key of this type and size.
fn may_ask(s: &[u8], version: Found, scheme: Option<usize>, size: usize) -> bool
    ensures { result ≡ may_ask s.now version scheme size }
{
    if !is_word(s, scheme, b"ed25519") {
        return false;
    }
    if !is_ours(s, version) {
        return false;
    }
    size == 32
}

// A server object by its members and its end.
fn see_parts(s: &[u8], parts: ServerParts, end: Option<usize>) -> Option<Seen>
    ensures { result ≡ seen_by s.now parts end }
{
    if !has_text(s, parts.name) {
        return None;
    }
    if !is_integer(s, parts.version) {
        return None;
    }
    let p = string_place(s, parts.scheme)?;
    let n = key_size(s, parts.key)?;
    let m = addresses_of(s, parts.addresses)?;
    Some(Seen {
        asks: may_ask(s, parts.version, Some(p), n),
        crowded: 8 < m,
        end,
    })
}

// A server object at its place.
pub fn see(s: &[u8], k: usize) -> Option<Seen>
    ensures { result ≡ seen_of s.now k }
{
    let b = byte(s, k);
    if b != b'{' {
        return None;
    }
    let m = members(
        s,
        k,
        IN_SERVER,
        b"name",
        b"version",
        b"publicKeyType",
        b"publicKey",
        b"addresses",
    );
    let parts = ServerParts {
        name: m.a,
        version: m.b,
        scheme: m.c,
        key: m.d,
        addresses: m.e,
    };
    see_parts(s, parts, m.end)
}
