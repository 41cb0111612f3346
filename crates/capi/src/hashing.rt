// Hashes for hosts.
ghost use Rattle.std.specs.Prelude.{◌≡◌};
ghost use Rattle.sha512.specs.Computation.{Sha512};
ghost use Rattle.hash.specs.Hashes.{leaf_of, parent_of, empty_place, srv_of, link_of};

// The SHA-512 digest of a message.
#[unsafe(no_mangle)]
pub extern "C" fn tb_sha512(message: &[u8], out: &mut [u8; 64])
    ensures { out.new ≡ Sha512 message.now }
{
    let d = sha512::sha512(message);
    *out = d;
}

// A leaf of a tree: H(0x00, packet).
#[unsafe(no_mangle)]
pub extern "C" fn tb_leaf(packet: &[u8], out: &mut [u8; 32])
    ensures { out.new ≡ leaf_of packet.now }
{
    let d = hash::leaf(packet);
    *out = d;
}

// A parent in a tree: H(0x01, left, right).
#[unsafe(no_mangle)]
pub extern "C" fn tb_parent(left: &[u8; 32], right: &[u8; 32], out: &mut [u8; 32])
    ensures { out.new ≡ parent_of left.now right.now }
{
    let d = hash::parent(*left, *right);
    *out = d;
}

// What an empty place of a tree holds: H(0x00).
#[unsafe(no_mangle)]
pub extern "C" fn tb_empty_place(out: &mut [u8; 32])
    ensures { out.new ≡ empty_place }
{
    let d = hash::empty_place();
    *out = d;
}

// The SRV value of the server with this long-term key: H(0xff, key).
#[unsafe(no_mangle)]
pub extern "C" fn tb_srv_value(key: &[u8; 32], out: &mut [u8; 32])
    ensures { out.new ≡ srv_of key.now }
{
    let d = hash::srv_value(*key);
    *out = d;
}

// The nonce that links a request to the response before it: H(response, rand).
#[unsafe(no_mangle)]
pub extern "C" fn tb_link(response: &[u8], rand: &[u8; 32], out: &mut [u8; 32])
    ensures { out.new ≡ link_of response.now rand.now }
{
    let d = hash::link(response, *rand);
    *out = d;
}
