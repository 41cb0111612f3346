// An entry: its four strings, by their places, and where it ends, in one walk over it.
ghost use Rattle.std.specs.Prelude.{true, false};
ghost use Rattle.report_read.specs.Ready.{PartOf, Exact, Randed, Looks};

use super::{IN_ENTRY, Spot};
use json_base64::size_of;
use json_tokens::byte;
use json_values::{Found, members};

// The string of base64 at a place.
fn part_at(s: &[u8], v: usize) -> Option<(usize, usize)>
    ensures { PartOf s.now (Found.At v) result }
{
    let b = byte(s, v);
    if b != b'"' {
        return None;
    }
    match size_of(s, v + 1) {
        Some(n) => Some((v + 1, n)),
        None => None,
    }
}

// That which is the value of a member.
fn part(s: &[u8], f: Found) -> Option<(usize, usize)>
    ensures { PartOf s.now f result }
{
    match f {
        Found::At(v) => part_at(s, v),
        Found::Nothing => None,
        Found::Twice => None,
    }
}

// The place of the same where it has to be of 32 bytes.
fn part_32(s: &[u8], f: Found) -> Option<usize>
    ensures { Exact s.now f result }
{
    match part(s, f) {
        Some((p, n)) => { if n == 32 { Some(p) } else { None } }
        None => None,
    }
}

// The rand of an entry: that of the first is not looked at. `first` is the flag of the definition `has_all`.
fn rand_part(s: &[u8], f: Found, first: bool) -> Option<usize>
    ensures { Randed s.now f first result }
{
    if first { Some(0) } else { part_32(s, f) }
}

// The element at a place: `first` is the flag of the definition `has_all`.
pub fn entry(s: &[u8], k: usize, first: bool) -> Option<(Spot, usize)>
    ensures { Looks s.now first k result }
{
    let b = byte(s, k);
    if b != b'{' {
        return None;
    }
    let m = members(
        s,
        k,
        IN_ENTRY,
        b"rand",
        b"publicKey",
        b"request",
        b"response",
        b"",
    );
    let end = m.end;
    let Some(e) = end else {
        return None;
    };
    let fa = m.a;
    let Some(rand) = rand_part(s, fa, first) else {
        return None;
    };
    let fb = m.b;
    let Some(key) = part_32(s, fb) else {
        return None;
    };
    let fc = m.c;
    let Some((request, asked)) = part(s, fc) else {
        return None;
    };
    let fd = m.d;
    let Some((response, said)) = part(s, fd) else {
        return None;
    };
    let spot = Spot {
        at: k,
        key,
        rand,
        request,
        response,
        asked,
        said,
    };
    Some((spot, e))
}
