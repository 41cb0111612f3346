// SHA-512 of a byte and a slice, as leaves and SRV values are. Both are open to all, and a block of zeros in a leaf takes
// less time: never of secret bytes.
ghost use Rattle.std.specs.Prelude.{◌≡◌, ◌∷◌};
ghost use Rattle.sha512.specs.Computation.{Sha512};

use super::digesting::digest;
use super::initial::initial_hash;
use super::last_blocks::last;
use super::message::sha512;
use octets::put;
use sha512_block::hash_open_blocks;

// The SHA-512 digest of one byte, and then a. The first block is put together, and the others are read where they are.
// A function of its own beside `sha512_pair`, by whose pieces a block of zeros takes the time of any other.
pub fn sha512_tagged(tag: u8, a: &[u8]) -> [u8; 64]
    ensures { result ≡ Sha512 (tag ∷ a.now) }
{
    let n = a.len() + 1;
    let mut b = [0u8; 128];
    b[0] = tag;
    if n < 128 {
        put(&mut b, 1, a);
        return sha512(&b[..n]);
    }
    put(&mut b, 1, &a[..127]);
    let x = hash_open_blocks(initial_hash(), &b);
    let t = &a[127..];
    let y = hash_open_blocks(x, t);
    let e = t.len() - t.len() % 128;
    digest(last(y, &t[e..], n))
}
