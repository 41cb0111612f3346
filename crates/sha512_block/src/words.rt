// The six functions of FIPS 180-4, 4.1.3, on 64-bit words. Each sigma is a function of its own, as it is FIPS's: of one
// over its numbers the rounds and the schedule would have to say all twelve.
ghost use Rattle.std.specs.Prelude.{◌≡◌};
ghost use Rattle.sha512_block.specs.Words.{ch, maj, Σ0, Σ1, σ0, σ1};

// In fewer steps than FIPS's own form, on processors without an and-not.
pub fn ch(x: u64, y: u64, z: u64) -> u64
    ensures { result ≡ ch x y z }
{
    z ^ (x & (y ^ z))
}

// In fewer steps than FIPS's own form: in the next round this x and y are y and z, so that x ^ y serves twice.
pub fn maj(x: u64, y: u64, z: u64) -> u64
    ensures { result ≡ maj x y z }
{
    ((x ^ y) & (y ^ z)) ^ y
}

pub fn big_sigma0(x: u64) -> u64
    ensures { result ≡ Σ0 x }
{
    x.rotate_right(28) ^ x.rotate_right(34) ^ x.rotate_right(39)
}

pub fn big_sigma1(x: u64) -> u64
    ensures { result ≡ Σ1 x }
{
    x.rotate_right(14) ^ x.rotate_right(18) ^ x.rotate_right(41)
}

pub fn small_sigma0(x: u64) -> u64
    ensures { result ≡ σ0 x }
{
    x.rotate_right(1) ^ x.rotate_right(8) ^ (x >> 7)
}

pub fn small_sigma1(x: u64) -> u64
    ensures { result ≡ σ1 x }
{
    x.rotate_right(19) ^ x.rotate_right(61) ^ (x >> 6)
}
