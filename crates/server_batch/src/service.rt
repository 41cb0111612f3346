// How a batch is answered.
ghost use Rattle.std.specs.Prelude.{◌≡◌};
ghost use Rattle.ed25519_sign.specs.Signing.{public_of};

// The server's SRV value, the value of CERT, the seed of the delegated key and this key itself, the time and its
// radius, and how many bytes the slot of an answer has. The key is the seed's own: a signature with another one would
// give the seed away.
#[derive(Drop)]
pub struct Service<'a> {
    pub srv: [u8; 32],
    pub cert: &'a [u8],
    pub seed: [u8; 32],
    pub key: [u8; 32],
    pub midp: u64,
    pub radi: u32,
    pub room: usize,
    ghost own: { key ≡ public_of seed },
}
