// A hash in pieces, for hosts. The state is memory of the host's, a struct of three fields. Each crosses as a pointer
// of its own, and the header's inline functions take the struct.
// Exports that start, and those that finish, are alike but for the call in each: C names every one of them, and an export
// can be no instance of a generic function.
ghost use Rattle.std.specs.Prelude.{◌≡◌, [], ◌∷◌};
ghost use Rattle.sha512.specs.State.{state_of, fed_of, state_then, fed_number, state_digest};
ghost use Rattle.hash.specs.Hashes.{hash_of};
ghost use Rattle.capi.specs.Pieces.{running_of};

use sha512::Running;

// The state before any piece.
#[unsafe(no_mangle)]
pub extern "C" fn tb_sha512_start_fields(h: &mut [u64; 8], rest: &mut [u8; 128], count: &mut u64)
    ensures { running_of h.new rest.new count.new ≡ state_of [] }
{
    let r = sha512::start();
    let x = r.h;
    *h = x;
    let b = r.rest;
    *rest = b;
    *count = r.count;
}

// The state of a leaf, before any piece of its packet.
#[unsafe(no_mangle)]
pub extern "C" fn tb_leaf_start_fields(h: &mut [u64; 8], rest: &mut [u8; 128], count: &mut u64)
    ensures { running_of h.new rest.new count.new ≡ state_of (0x00 ∷ []) }
{
    let r = hash::start_leaf();
    let x = r.h;
    *h = x;
    let b = r.rest;
    *rest = b;
    *count = r.count;
}

// One piece more: 0; or 30, and then the state stays.
#[unsafe(no_mangle)]
pub extern "C" fn tb_sha512_take_fields(
    h: &mut [u64; 8],
    rest: &mut [u8; 128],
    count: &mut u64,
    piece: &[u8],
) -> u32
    ensures { (result ≡ fed_number (fed_of (running_of h.old rest.old count.old)
        piece.now))
        × (running_of h.new rest.new count.new
        ≡ state_then (running_of h.old rest.old count.old) (fed_of (running_of h.old rest.old count.old) piece.now)) }
{
    let before = Running {
        h: *h,
        rest: *rest,
        count: *count,
    };
    match sha512::take_piece(before, piece) {
        Ok(r) => {
            let x = r.h;
            *h = x;
            let b = r.rest;
            *rest = b;
            *count = r.count;
            0
        }
        Err(why) => c_packets::number(why),
    }
}

// The digest of what was taken so far.
#[unsafe(no_mangle)]
pub extern "C" fn tb_sha512_finish_fields(
    h: &[u64; 8],
    rest: &[u8; 128], // lent to be read: finishing changes nothing
    count: u64,
    out: &mut [u8; 64],
)
    ensures { out.new ≡ state_digest (running_of h.now rest.now count) }
{
    let digest = sha512::finish(Running {
        h: *h,
        rest: *rest,
        count: count,
    });
    *out = digest;
}

// H of what was taken so far: the leaf of a packet, or a link.
#[unsafe(no_mangle)]
pub extern "C" fn tb_hash_finish_fields(
    h: &[u64; 8],
    rest: &[u8; 128],
    count: u64,
    out: &mut [u8; 32],
)
    ensures { out.new ≡ hash_of (running_of h.now rest.now count) }
{
    let d = hash::finish_hash(Running {
        h: *h,
        rest: *rest,
        count: count,
    });
    *out = d;
}
