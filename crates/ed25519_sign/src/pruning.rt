// The bits of a secret scalar that are set and cleared (RFC 8032, 5.1.5, step 2).
ghost use Rattle.std.specs.Prelude.{◌≡◌, ◌^◌, ◌<◌, take};
ghost use Rattle.digits.specs.Digits.{value};
ghost use Rattle.ed25519_sign.specs.Signing.{pruned};

use octets::copy32;

// The first half of the digest h of a seed, pruned.
pub fn pruned(h: [u8; 64]) -> [u8; 32]
    ensures { (result ≡ pruned (take 32 h)) × (value 256 result < 2 ^ 255) }
{
    let mut s = copy32(&h, 0);
    let first = s[0];
    let last = s[31];
    s[0] = first / 8 * 8;
    s[31] = last % 64 + 64;
    s
}
