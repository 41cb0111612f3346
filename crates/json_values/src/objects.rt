// The members of an object under several names at once, and where it ends, in one walk over it.
ghost use Rattle.std.specs.Prelude.{◌≡◌, ◌<◌, length};
ghost use Rattle.json_values.specs.Members.{named, value_place, answer_of, found_of};
ghost use Rattle.json_values.specs.Value.{value_at, member_step, object_of};
ghost use Rattle.json_values.specs.Facts.{Noted};
ghost use Rattle.json_strings.specs.Text.{string_at, told, Lettered};

use super::names::{answer, is_named, one_more};
use super::values::value;
use super::{Five, Object, Seen, Turn};
use json_strings::measured;
use json_tokens::{Step, after_item, blanks, byte, colon};

fn nothing() -> Five
    ensures n_value { (result.a.n ≡ 0) × (result.b.n ≡ 0) × (result.c.n ≡ 0) × (result.d.n ≡ 0) × (result.e.n ≡ 0) }
    ensures v_value { (result.a.v ≡ 0) × (result.b.v ≡ 0) × (result.c.v ≡ 0) × (result.d.v ≡ 0) × (result.e.v ≡ 0) }
{
    let z = Seen { n: 0, v: 0 };
    Five {
        a: z,
        b: z,
        c: z,
        d: z,
        e: z,
    }
}

// The member at k, whose value stands at v, under one of the names. Where two had it already, one more changes nothing.
fn looked(s: &[u8], k: usize, v: usize, w: &[u8], t: Seen) -> Seen
    ensures { Noted s.now w.now k v t result }
{
    if t.n == 2 {
        return t;
    }
    if is_named(s, k, w) {
        Seen {
            n: one_more(t.n),
            v,
        }
    } else {
        t
    }
}

// The same where its name has n characters: mostly the word has another number of them. The member's three numbers are no
// struct: a Turn has two of them, beside a step that nothing is looked up by.
fn looked_by(s: &[u8], k: usize, v: usize, w: &[u8], t: Seen, n: usize) -> Seen
    requires { Lettered s.now k n }
    ensures { Noted s.now w.now k v t result }
{
    if w.len() != n {
        return t;
    }
    looked(s, k, v, w, t)
}

// The same under each of them. The words stay apart as in `members`.
fn look(
    s: &[u8],
    k: usize,
    v: usize,
    m: Five,
    a: &[u8],
    b: &[u8],
    c: &[u8],
    d: &[u8],
    e: &[u8],
    n: usize,
) -> Five
    requires { Lettered s.now k n }
    ensures noted { Noted s.now a.now k v m.a result.a }
    ensures noted_2 { Noted s.now b.now k v m.b result.b }
    ensures noted_3 { Noted s.now c.now k v m.c result.c }
    ensures noted_4 { Noted s.now d.now k v m.d result.d }
    ensures noted_5 { Noted s.now e.now k v m.e result.e }
{
    Five {
        a: looked_by(s, k, v, a, m.a, n),
        b: looked_by(s, k, v, b, m.b, n),
        c: looked_by(s, k, v, c, m.c, n),
        d: looked_by(s, k, v, d, m.d, n),
        e: looked_by(s, k, v, e, m.e, n),
    }
}

// Past the name of the member at k, by the number that says it.
fn name_end(s: &[u8], k: usize, past: usize) -> Option<usize>
    requires { string_at s.now k ≡ told past }
    ensures { result ≡ string_at s.now k }
{
    if past == 0 { None } else { Some(past) }
}

// A turn of an object.
fn take(s: &[u8], k: usize, depth: usize) -> Turn
    ensures value_value { result.value ≡ value_place s.now k }
    ensures step_value { result.step ≡ member_step s.now (value_at s.now depth) k }
    ensures lettered { Lettered s.now k result.letters }
{
    let name = measured(s, k);
    let Some(e) = name_end(s, k, name.past) else {
        return Turn {
            letters: name.letters,
            value: 0,
            step: Step::Wrong,
        };
    };
    let Some(v) = colon(s, e) else {
        return Turn {
            letters: name.letters,
            value: 0,
            step: Step::Wrong,
        };
    };
    let Some(f) = value(s, v, depth) else {
        return Turn {
            letters: name.letters,
            value: v,
            step: Step::Wrong,
        };
    };
    Turn {
        letters: name.letters,
        value: v,
        step: after_item(s, f, b'}'),
    }
}

fn ended(end: Option<usize>, m: Five) -> Object
    ensures end_value { result.end ≡ end }
    ensures a_value { result.a ≡ answer_of m.a.n m.a.v }
    ensures b_value { result.b ≡ answer_of m.b.n m.b.v }
    ensures c_value { result.c ≡ answer_of m.c.n m.c.v }
    ensures d_value { result.d ≡ answer_of m.d.n m.d.v }
    ensures e_value { result.e ≡ answer_of m.e.n m.e.v }
{
    Object {
        end,
        a: answer(m.a.n, m.a.v),
        b: answer(m.b.n, m.b.v),
        c: answer(m.c.n, m.c.v),
        d: answer(m.d.n, m.d.v),
        e: answer(m.e.n, m.e.v),
    }
}

// The members of five names of the object at a place, and where it ends, in one walk over it. Who needs fewer lends
// b"" and does not look. Five words, and no array of them: each has a clause of its own below, by which the readers of
// reports and lists tell what they found.
pub fn members(
    s: &[u8],
    at: usize,
    depth: usize,
    a: &[u8],
    b: &[u8],
    c: &[u8],
    d: &[u8],
    e: &[u8],
) -> Object
    requires { at < length s.now }
    ensures end_value { result.end ≡ object_of s.now (value_at s.now depth) at }
    ensures a_value { result.a ≡ found_of s.now a.now depth at }
    ensures b_value { result.b ≡ found_of s.now b.now depth at }
    ensures c_value { result.c ≡ found_of s.now c.now depth at }
    ensures d_value { result.d ≡ found_of s.now d.now depth at }
    ensures e_value { result.e ≡ found_of s.now e.now depth at }
{
    let mut m = nothing();
    let first = blanks(s, at + 1);
    if byte(s, first) == b'}' {
        return ended(Some(first + 1), m);
    }
    let mut k = first;
    // loop: a member is looked at before its turn says whether another follows.
    loop {
        let t = take(s, k, depth);
        m = look(s, k, t.value, m, a, b, c, d, e, t.letters);
        match t.step {
            Step::More(j) => {
                k = j;
            }
            Step::End(f) => {
                return ended(Some(f), m);
            }
            Step::Wrong => {
                return ended(None, m);
            }
        }
    }
}
