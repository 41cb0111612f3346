// H, the first 32 bytes of SHA-512 (draft 19, 5.1.4), over what Roughtime hashes.
#![tactic(auto)]

ghost use Rattle.std.specs.Prelude.{◌≡◌, [], ◌∷◌, take};
ghost use Rattle.sha512.specs.State.{state_of};
ghost use Rattle.hash.specs.Hashes.{H32, leaf_of, parent_of, empty_place, srv_of, link_of, hash_of};

use octets::{copy32, put};
use sha512::{Running, finish, sha512, sha512_pair, sha512_tagged, start, update};

// A leaf: H(0x00, packet), of a whole request packet, header included.
pub fn leaf(packet: &[u8]) -> [u8; 32]
    ensures { result ≡ leaf_of packet.now }
{
    tagged(0x00, packet)
}

// A parent: H(0x01, left, right). Put together in one array, and not by `tagged`, which would copy it once more: a tree's
// inner work is all of this.
pub fn parent(left: [u8; 32], right: [u8; 32]) -> [u8; 32]
    ensures { result ≡ parent_of left right }
{
    let mut b = [0u8; 65];
    b[0] = 0x01;
    put(&mut b, 1, &left);
    put(&mut b, 33, &right);
    front(sha512(&b))
}

// What an empty place of a tree holds: H(0x00).
pub fn empty_place() -> [u8; 32]
    ensures { result ≡ empty_place }
{
    front(sha512(b"\x00"))
}

// The SRV value of a server: H(0xff, key), of its long-term key.
pub fn srv_value(key: [u8; 32]) -> [u8; 32]
    ensures { result ≡ srv_of key }
{
    tagged(0xff, &key)
}

// The nonce that links a request to the response before it: H(response, rand), of the whole response packet.
pub fn link(response: &[u8], rand: [u8; 32]) -> [u8; 32]
    ensures { result ≡ link_of response.now rand }
{
    front(sha512_pair(response, &rand))
}

// The state of a leaf before any piece of its packet: 0x00 is taken. sha512's `take_piece` takes the packet, and
// `finish_hash` says the leaf.
pub fn start_leaf() -> Running
    ensures { result ≡ state_of (0x00 ∷ []) }
{
    update(start(), b"\x00")
}

// H of what a state has taken: the leaf, where it began as one; the link, where the rand was the last piece.
#[tactic(auto, unfolding(crate::specs::Hashes::hash_of))]
pub fn finish_hash(r: Running) -> [u8; 32]
    ensures { result ≡ hash_of r }
{
    front(finish(r))
}

// H(tag, bytes).
#[tactic(auto, unfolding(crate::specs::Hashes::H32))]
fn tagged(tag: u8, bytes: &[u8]) -> [u8; 32]
    ensures { result ≡ H32 (tag ∷ bytes.now) }
{
    front(sha512_tagged(tag, bytes))
}

// The first 32 bytes of a digest.
fn front(d: [u8; 64]) -> [u8; 32]
    ensures { result ≡ take 32 d }
{
    copy32(&d, 0)
}
