// The lines, each put into a buffer behind the ones before it. Each function answers the index at which its line ends.
ghost use Rattle.std.specs.Prelude.{◌+◌, ◌≤◌, length};
ghost use Rattle.laws.specs.Written.{Puts};
ghost use Rattle.console_lines.specs.Line.{labelled, window_line, place_text, refusal_line, record_line, run_line};

use super::pieces::{put_number, put_spaced, put_word};
use check_response::{Verdict, Window};
use refusal::codes;

// A word and a number.
pub fn put_labelled(out: &mut [u8], at: usize, word: &[u8], x: u64) -> usize
    requires { at + length word.now + 22 ≤ length out.old }
    ensures puts { Puts out.old at (labelled word.now x) out.new result }
    ensures upper_bound { result ≤ at + length word.now + 22 }
{
    let a = put_word(out, at, word);
    let b = put_spaced(out, a, x);
    put_word(out, b, b"\n")
}

// Record k with its window.
fn put_window(out: &mut [u8], at: usize, k: usize, w: Window) -> usize
    requires { at + 108 ≤ length out.old }
    ensures puts { Puts out.old at (window_line k w.low w.high w.mint w.maxt)
        out.new result }
    ensures upper_bound { result ≤ at + 108 }
{
    let a = put_number(out, at, k as u64);
    let b = put_word(out, a, b" ok");
    let c = put_spaced(out, b, w.low);
    let d = put_spaced(out, c, w.high);
    let e = put_spaced(out, d, w.mint);
    let f = put_spaced(out, e, w.maxt);
    put_word(out, f, b"\n")
}

// Record k with its refusal.
fn put_refusal(out: &mut [u8], at: usize, k: usize, code: u8, place: usize) -> usize
    requires { at + 71 ≤ length out.old }
    ensures puts { Puts out.old at (refusal_line k code place) out.new result }
    ensures upper_bound { result ≤ at + 71 }
{
    let a = put_number(out, at, k as u64);
    let b = put_word(out, a, b" refused");
    let c = put_spaced(out, b, code as u64);
    let d = put_place(out, c, code, place);
    put_word(out, d, b"\n")
}

// The place that a code carries; of a code that carries none nothing.
fn put_place(out: &mut [u8], at: usize, code: u8, place: usize) -> usize
    requires { at + 21 ≤ length out.old }
    ensures puts { Puts out.old at (place_text code place) out.new result }
    ensures upper_bound { result ≤ at + 21 }
{
    if code < codes::FRAME {
        return at;
    }
    if codes::VALUE < code {
        return at;
    }
    put_spaced(out, at, place as u64)
}

// Record k with its verdict.
pub fn put_record(out: &mut [u8], at: usize, k: usize, v: Verdict) -> usize
    requires { at + 108 ≤ length out.old }
    ensures puts { Puts out.old at (record_line k v) out.new result }
    ensures upper_bound { result ≤ at + 108 }
{
    match v {
        Ok(w) => put_window(out, at, k, w),
        Err(why) => put_refusal(out, at, k, why.code, why.at),
    }
}

// The run, by its first and its last record.
pub fn put_run(out: &mut [u8], at: usize, first: usize, last: usize) -> usize
    requires { at + 46 ≤ length out.old }
    ensures puts { Puts out.old at (run_line first last) out.new result }
    ensures upper_bound { result ≤ at + 46 }
{
    let a = put_word(out, at, b"run");
    let b = put_spaced(out, a, first as u64);
    let c = put_spaced(out, b, last as u64);
    put_word(out, c, b"\n")
}
