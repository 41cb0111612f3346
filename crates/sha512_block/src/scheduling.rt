// The message schedule of a block, sixteen words at a time (FIPS 180-4, 6.4.2, step 1): word t stands at place t % 16.
ghost use Rattle.std.specs.Prelude.{◌≡◌, ◌<◌};
ghost use Rattle.sha512_block.specs.Rolling.{word_step};
ghost use Rattle.sha512_block.specs.Schedule.{first_words};

use super::words::{small_sigma0, small_sigma1};
use octets::be64;
use std::array;

// The block's own sixteen words.
pub fn block_words(b: &[u8; 128]) -> [u64; 16]
    ensures { result ≡ first_words b.now 16 }
{
    array::from_fn(
        |t|
            requires { t < 16 }
        { be64(b, 8 * t) },
    )
}

// Word t + 16, from the words t, t + 1, t + 9 and t + 14. It takes the place of word t, which no later word needs.
pub fn next_word(w: &mut [u64; 16], t: usize)
    requires { t < 64 }
    ensures { w.new ≡ word_step t w.old }
{
    let x = small_sigma1(w[(t + 14) % 16]).wrapping_add(w[(t + 9) % 16]);
    let y = x.wrapping_add(small_sigma0(w[(t + 1) % 16]));
    w[t % 16] = y.wrapping_add(w[t % 16]);
}
