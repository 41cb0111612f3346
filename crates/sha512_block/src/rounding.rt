// The eighty rounds on a block (FIPS 180-4, 6.4.2, step 3).
ghost use Rattle.std.specs.Prelude.{◌≡◌, ◌+◌, ◌<◌, ◌≤◌};
ghost use Rattle.sha512_block.specs.Rolling.{turning, round_step, turn_step};
ghost use Rattle.sha512_block.specs.Rounds.{T1, T2, round, rounds};
ghost use Rattle.sha512_block.specs.Schedule.{schedule};
ghost use Rattle.sha512_block.specs.Steps.{steps};

use super::Regs;
use super::constants::constant;
use super::scheduling::{block_words, next_word};
use super::words::{big_sigma0, big_sigma1, ch, maj};

// All the rounds on the block b. A word is worked out sixteen rounds before its own.
pub fn rounds(s: Regs, b: &[u8; 128]) -> Regs
    ensures { result ≡ rounds (schedule b.now) s 80 }
{
    let mut w = block_words(b);
    let mut x = s;
    // over their numbers: a run takes its place, and the words change from one to the next
    for run in 0..4 {
        x = sixteen_turns(x, &mut w, 16 * run);
    }
    sixteen_rounds(x, &w, 64)
}

// Sixteen turns, from turn t on. Written out, so that the compiler knows every place: after sixteen, all words and
// working variables are back in theirs. A loop over the turns takes 1.3 times as long.
fn sixteen_turns(s: Regs, w: &mut [u64; 16], t: usize) -> Regs
    requires { t + 16 ≤ 64 }
    ensures { turning result w.new ≡ steps turn_step t 16 (turning s w.old) }
{
    let s1 = turn(s, w, t, 0);
    let s2 = turn(s1, w, t, 1);
    let s3 = turn(s2, w, t, 2);
    let s4 = turn(s3, w, t, 3);
    let s5 = turn(s4, w, t, 4);
    let s6 = turn(s5, w, t, 5);
    let s7 = turn(s6, w, t, 6);
    let s8 = turn(s7, w, t, 7);
    let s9 = turn(s8, w, t, 8);
    let s10 = turn(s9, w, t, 9);
    let s11 = turn(s10, w, t, 10);
    let s12 = turn(s11, w, t, 11);
    let s13 = turn(s12, w, t, 12);
    let s14 = turn(s13, w, t, 13);
    let s15 = turn(s14, w, t, 14);
    turn(s15, w, t, 15)
}

// Turn t + i: its own word is read, word t + i + 16 takes its place, and then comes its round.
// What is asked of t, which all sixteen turns share, is promised too, so that the next turn finds it near.
fn turn(s: Regs, w: &mut [u64; 16], t: usize, i: usize) -> Regs
    requires { (t + 16 ≤ 64) × (i < 16) }
    ensures w_after { turning result w.new ≡ turn_step (t + i) (turning s w.old) }
    ensures t_bound { t + 16 ≤ 64 }
{
    let u = t + i;
    let v = w[u % 16];
    next_word(w, u);
    round(s, constant(u), v)
}

// Sixteen rounds, from round t on, which need no more words. Written out as the turns are, and for the same reason: a
// loop takes 1.5 times as long on zeros.
// Not one with `sixteen_turns`: one over a trait of steps would need a law of what a step makes of the words, which here
// stay, and the trait with its two impls and that law would be longer than these sixteen lines.
#[inline(always)]
pub fn sixteen_rounds(s: Regs, w: &[u64; 16], t: usize) -> Regs
    requires { t + 16 ≤ 80 }
    ensures { result ≡ steps (round_step w.now) t 16 s }
{
    let s1 = one_round(s, w, t, 0);
    let s2 = one_round(s1, w, t, 1);
    let s3 = one_round(s2, w, t, 2);
    let s4 = one_round(s3, w, t, 3);
    let s5 = one_round(s4, w, t, 4);
    let s6 = one_round(s5, w, t, 5);
    let s7 = one_round(s6, w, t, 6);
    let s8 = one_round(s7, w, t, 7);
    let s9 = one_round(s8, w, t, 8);
    let s10 = one_round(s9, w, t, 9);
    let s11 = one_round(s10, w, t, 10);
    let s12 = one_round(s11, w, t, 11);
    let s13 = one_round(s12, w, t, 12);
    let s14 = one_round(s13, w, t, 13);
    let s15 = one_round(s14, w, t, 14);
    one_round(s15, w, t, 15)
}

// Round t + i.
fn one_round(s: Regs, w: &[u64; 16], t: usize, i: usize) -> Regs
    requires { t + i < 80 }
    ensures { result ≡ round_step w.now (t + i) s }
{
    round(s, constant(t + i), w[(t + i) % 16])
}

// One round, with its constant and its word.
#[tactic(auto, unfolding(crate::specs::Rounds::round))]
pub fn round(s: Regs, k: u64, w: u64) -> Regs
    ensures { result ≡ round k w s }
{
    let x = t1(s, k, w);
    Regs {
        a: x.wrapping_add(t2(s)),
        b: s.a,
        c: s.b,
        d: s.c,
        e: s.d.wrapping_add(x),
        f: s.e,
        g: s.f,
        h: s.g,
    }
}

#[tactic(auto, unfolding(crate::specs::Rounds::T1))]
fn t1(s: Regs, k: u64, w: u64) -> u64
    ensures { result ≡ T1 k w s }
{
    s.h.wrapping_add(big_sigma1(s.e))
        .wrapping_add(ch(s.e, s.f, s.g))
        .wrapping_add(k)
        .wrapping_add(w)
}

#[tactic(auto, unfolding(crate::specs::Rounds::T2))]
fn t2(s: Regs) -> u64
    ensures { result ≡ T2 s }
{
    big_sigma0(s.a).wrapping_add(maj(s.a, s.b, s.c))
}
