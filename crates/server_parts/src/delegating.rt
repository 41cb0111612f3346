// DELE, which the long-term key signs, and CERT, which holds it with that signature.
ghost use Rattle.std.specs.Prelude.{◌≡◌, ◌+◌, ◌≤◌, length};
ghost use Rattle.laws.specs.Pasted.{pasted};
ghost use Rattle.laws.specs.Written.{written};
ghost use Rattle.refusal.specs.Refusal.{passed};
ghost use Rattle.wire_request.specs.Answered.{wrote_number, answered};
ghost use Rattle.server_parts.specs.Delegation.{dele_bytes, cert_bytes};

use super::wording::put_words;
use octets::{le64_bytes, put};
use refusal::{Refusal, codes, refuse};
use wire_message::tags::{DELE, MAXT, MINT, PUBK, SIG};

// DELE for the delegated key, and the first and the last second at which it may sign, at the front of out: 72 bytes.
pub fn write_dele(pubk: [u8; 32], mint: u64, maxt: u64, out: &mut [u8]) -> Result<usize, Refusal>
    ensures value { result ≡ answered passed (dele_bytes pubk mint maxt) out.old }
    ensures out_after { out.new ≡ written (wrote_number result) (dele_bytes pubk mint maxt) out.old }
{
    if out.len() < 72 {
        return Err(refuse(codes::ROOM));
    }
    put_dele(out, 0, pubk, mint, maxt);
    Ok(72)
}

// CERT for the same and the signature over that DELE, at the front of out: 152 bytes.
pub fn write_cert(
    pubk: [u8; 32],
    mint: u64,
    maxt: u64,
    signature: [u8; 64],
    out: &mut [u8],
) -> Result<usize, Refusal>
    ensures value { result ≡ answered passed (cert_bytes pubk mint maxt signature) out.old }
    ensures out_after { out.new
        ≡ written (wrote_number result) (cert_bytes pubk mint maxt signature) out.old }
{
    if out.len() < 152 {
        return Err(refuse(codes::ROOM));
    }
    // Two values, of which the second starts at 64, and the tags.
    put_words(out, 0, &[2, 64, SIG, DELE]);
    put(out, 16, &signature);
    put_dele(out, 80, pubk, mint, maxt);
    Ok(152)
}

// DELE, from index at of dst on.
fn put_dele(dst: &mut [u8], at: usize, pubk: [u8; 32], mint: u64, maxt: u64)
    requires { at + 72 ≤ length dst.old }
    ensures { dst.new ≡ pasted dst.old at (dele_bytes pubk mint maxt) }
{
    // Three values, of which the later two start at 32 and 40, and the tags.
    put_words(dst, at, &[3, 32, 40, PUBK, MINT, MAXT]);
    put(dst, at + 24, &pubk);
    let from = le64_bytes(mint);
    put(dst, at + 56, &from);
    let to = le64_bytes(maxt);
    put(dst, at + 64, &to);
}
