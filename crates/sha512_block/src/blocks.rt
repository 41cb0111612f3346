// The whole blocks of a slice worked into the hash value, one by one (FIPS 180-4, 6.4.2).
ghost use Rattle.std.specs.Prelude.{◌≡◌};
ghost use Rattle.sha512_block.specs.HashValue.{next_hash, compress, hashed};
ghost use Rattle.sha512_block.specs.Rounds.{working_variables, rounds};
ghost use Rattle.sha512_block.specs.Schedule.{schedule};

use super::Regs;
use super::quiet::quiet_rounds;
use super::rounding::rounds;
use octets::all_zero;

// The hash value after the whole blocks of s, from the hash value h on. Bytes behind the last whole block play no part.
// No branch hangs on the bytes, which may be secret.
pub fn hash_blocks(h: [u64; 8], s: &[u8]) -> [u64; 8]
    ensures { result ≡ hashed h s.now }
{
    blocks_hashed::<Secret>(h, s)
}

// The same of bytes that are open to all, as requests are: a block of zeros, of which a request has several, takes less
// time than another. Never of secret bytes, since the time tells whether they are zeros.
pub fn hash_open_blocks(h: [u64; 8], s: &[u8]) -> [u64; 8]
    ensures { result ≡ hashed h s.now }
{
    blocks_hashed::<Open>(h, s)
}

// How the rounds on a block go, by who may know its bytes.
trait Openness {
    // All the rounds on the block b.
    fn block_rounds(s: Regs, b: &[u8; 128]) -> Regs
        ensures { result ≡ rounds (schedule b.now) s 80 };
}

// Bytes that may be secret: they are not looked at.
struct Secret;

impl Openness for Secret {
    fn block_rounds(s: Regs, b: &[u8; 128]) -> Regs {
        rounds(s, b)
    }
}

// Bytes that are open to all.
struct Open;

impl Openness for Open {
    fn block_rounds(s: Regs, b: &[u8; 128]) -> Regs {
        if all_zero(b) {
            quiet_rounds(s)
        } else {
            rounds(s, b)
        }
    }
}

// Block after block.
fn blocks_hashed<O: Openness>(h: [u64; 8], s: &[u8]) -> [u64; 8]
    ensures { result ≡ hashed h s.now }
{
    let (blocks, _) = s.as_chunks::<128>();
    let mut x = h;
    for block in blocks {
        let next = compress::<O>(x, block);
        x = next;
    }
    x
}

// The hash value after the block b.
#[tactic(auto, unfolding(crate::specs::HashValue::compress))]
fn compress<O: Openness>(h: [u64; 8], b: &[u8; 128]) -> [u64; 8]
    ensures { result ≡ compress h b.now }
{
    next_hash(h, O::block_rounds(working_variables(h), b))
}

// Step 2: the working variables as the rounds begin.
#[tactic(auto, unfolding(crate::specs::Rounds::working_variables))]
fn working_variables(h: [u64; 8]) -> Regs
    ensures { result ≡ working_variables h }
{
    Regs {
        a: h[0],
        b: h[1],
        c: h[2],
        d: h[3],
        e: h[4],
        f: h[5],
        g: h[6],
        h: h[7],
    }
}

// Step 4: the hash value with the working variables added.
#[tactic(auto, unfolding(crate::specs::HashValue::next_hash))]
fn next_hash(h: [u64; 8], s: Regs) -> [u64; 8]
    ensures { result ≡ next_hash h s }
{
    [
        h[0].wrapping_add(s.a),
        h[1].wrapping_add(s.b),
        h[2].wrapping_add(s.c),
        h[3].wrapping_add(s.d),
        h[4].wrapping_add(s.e),
        h[5].wrapping_add(s.f),
        h[6].wrapping_add(s.g),
        h[7].wrapping_add(s.h),
    ]
}
