// What is said of a pile and its answers, printed (document 01, "Examples"). A library, so that several programs run it
// on files of their own. Of a pile alone the answers are those of our own Ed25519.
#![tactic(auto)]

mod answering;
mod files;
mod verdicts;

use answering::put_answers;
pub use files::argument_count;
use files::read_named;
use std::env::Env;
use std::fs::Files;
use std::io::Print;
use verdicts::tell;

// Tells of the pile that the program's argument i names, with the answers that argument j names. Each is read into one
// byte more than the longest that can be right, so that a longer one is refused for its length and nothing of it is
// lost unsaid.
pub fn tell_named<R: Env + Files + Print>(rt: &R, i: usize, j: usize) -> std::io::Result<()> {
    let mut pile = [0u8; 65537];
    let n = read_named(rt, i, &mut pile);
    let mut answers = [0u8; 33];
    let m = read_named(rt, j, &mut answers);
    tell(rt, &pile[..n], &answers[..m])
}

// Tells of the pile that the program's argument i names, with no answers beside it: what is told with those that our
// own Ed25519 gives. Of a pile of a wrong length there are none.
pub fn tell_alone<R: Env + Files + Print>(rt: &R, i: usize) -> std::io::Result<()> {
    let mut pile = [0u8; 65537];
    let n = read_named(rt, i, &mut pile);
    let mut answers = [0u8; 32];
    let m = put_answers(&pile[..n], &mut answers);
    tell(rt, &pile[..n], &answers[..m])
}
