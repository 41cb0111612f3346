// SREP, which the server signs before it writes responses with it.
ghost use Rattle.std.specs.Prelude.{◌≡◌, ◌+◌, ◌≤◌, length};
ghost use Rattle.laws.specs.Pasted.{pasted};
ghost use Rattle.laws.specs.Written.{written};
ghost use Rattle.refusal.specs.Refusal.{passes};
ghost use Rattle.wire_request.specs.Answered.{wrote_number, answered};
ghost use Rattle.server_parts.specs.Signed.{srep_bytes, radius_code};

use super::wording::put_words;
use octets::{le64_bytes, put};
use refusal::{Refusal, codes, refuse};
use wire_message::tags::{MIDP, RADI, ROOT, VER, VERS};

// SREP for the root of a batch, a time and its radius, at the front of out: 92 bytes. It is refused with 7 for a radius
// of 0, which carries no place, and then with 19.
pub fn write_srep(root: [u8; 32], midp: u64, radi: u32, out: &mut [u8]) -> Result<usize, Refusal>
    ensures value { result ≡ answered (radius_code radi) (srep_bytes root midp radi) out.old }
    ensures out_after { out.new ≡ written (wrote_number result) (srep_bytes root midp radi) out.old }
{
    radius_code(radi)?;
    if out.len() < 92 {
        return Err(refuse(codes::ROOM));
    }
    put_srep(out, 0, root, midp, radi);
    Ok(92)
}

// Code 7 for a radius of 0. It carries no place: there are no bytes yet in which RADI could stand.
pub fn radius_code(radi: u32) -> Result<(), Refusal>
    ensures { result ≡ passes (radius_code radi) }
{
    if radi == 0 {
        return Err(refuse(codes::VALUE));
    }
    Ok(())
}

// SREP, from index at of dst on.
pub fn put_srep(dst: &mut [u8], at: usize, root: [u8; 32], midp: u64, radi: u32)
    requires { at + 92 ≤ length dst.old }
    ensures { dst.new ≡ pasted dst.old at (srep_bytes root midp radi) }
{
    // Five values, of which the later four start at 4, 8, 16 and 20; the tags; and the first two values.
    put_words(
        dst,
        at,
        &[5, 4, 8, 16, 20, VER, RADI, MIDP, VERS, ROOT, 1, radi],
    );
    let time = le64_bytes(midp);
    put(dst, at + 48, &time);
    // The only version that we know.
    put_words(dst, at + 56, &[1]);
    put(dst, at + 60, &root);
}
