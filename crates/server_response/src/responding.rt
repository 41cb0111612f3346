// The whole response to a request.
ghost use Rattle.std.specs.Prelude.{[], ◌∷◌, ◌++◌, ◌≡◌, ◌+◌, ◌≤◌, length};
ghost use Rattle.laws.specs.Pasted.{pasted};
ghost use Rattle.laws.specs.Written.{written};
ghost use Rattle.wire_message.specs.Encode.{words};
ghost use Rattle.wire_request.specs.Answered.{wrote_number, answered};
ghost use Rattle.server_response.specs.Refusing.{reply_code};
ghost use Rattle.server_response.specs.Response.{reply, response_bytes};
ghost use Rattle.server_response.specs.Steps.{front_bytes};

use super::refusing::tests_code;
use octets::put;
use refusal::{Refusal, codes, refuse};
use server_parts::{put_srep, put_words};
use wire_message::tags::{CERT, INDX, NONC, PATH, SIG, SREP, TYPE};
use wire_packet::fields::value32;
use wire_packet::packet::{MARK, body_of};

// The response to a request, at the front of out: of 264 bytes, the path and CERT, with VER and VERS {1}. The signature
// is that over what `write_srep` writes for the same root, MIDP and RADI. Refused, in this order, with 14; 7 for RADI
// 0; 4 to 7 for CERT and its DELE; 10; 11; 23; 19. The parameters are those of `tb_write_response`.
pub fn write_response<'a>(
    request: &'a [u8],
    indx: u32,
    root: [u8; 32],
    path: &'a [u8],
    midp: u64,
    radi: u32,
    cert: &'a [u8],
    signature: [u8; 64],
    out: &mut [u8],
) -> Result<usize, Refusal>
    ensures value { result
        ≡ answered
        (reply_code
        (reply request.now indx root path.now midp radi cert.now signature))
        (response_bytes
        (reply request.now indx root path.now midp radi cert.now signature))
        out.old }
    ensures out_after { out.new
        ≡ written (wrote_number result)
        (response_bytes
        (reply request.now indx root path.now midp radi cert.now signature))
        out.old }
{
    tests_code(request, indx, root, path, midp, radi, cert)?;
    let n = 264 + path.len() + cert.len();
    if out.len() < n {
        return Err(refuse(codes::ROOM));
    }
    let nonce = value32(body_of(request), NONC);
    put_front(out, signature, nonce, path.len() as u32, cert.len() as u32);
    put(out, 168, path);
    let behind = 168 + path.len();
    // SREP has 92 bytes.
    put_srep(out, behind, root, midp, radi);
    put_end(out, behind + 92, cert, indx);
    Ok(n)
}

// What stands before the path, which has p bytes, and CERT c.
pub fn put_front(dst: &mut [u8], signature: [u8; 64], nonce: [u8; 32], p: u32, c: u32)
    requires { (168 ≤ length dst.old) × (p + c ≤ 2000) }
    ensures { dst.new ≡ pasted dst.old 0 (front_bytes signature nonce p c) }
{
    put(dst, 0, &MARK);
    // The length of the message; its seven values, of which the later six start at 64, 96, 100, behind the path, behind
    // SREP and behind CERT; and the tags.
    put_words(
        dst,
        8,
        &[
            252 + p + c,
            7,
            64,
            96,
            100,
            100 + p,
            192 + p,
            192 + p + c,
            SIG,
            NONC,
            TYPE,
            PATH,
            SREP,
            CERT,
            INDX,
        ],
    );
    put(dst, 68, &signature);
    put(dst, 132, &nonce);
    // A response has TYPE 1.
    put_words(dst, 164, &[1]);
}

// What stands behind SREP, which ends before index at: CERT and INDX.
pub fn put_end(dst: &mut [u8], at: usize, cert: &[u8], indx: u32)
    requires { at + (4 + length cert.now) ≤ length dst.old }
    ensures { dst.new ≡ pasted dst.old at (cert.now ++ words (indx ∷ [])) }
{
    put(dst, at, cert);
    put_words(dst, at + cert.len(), &[indx]);
}
