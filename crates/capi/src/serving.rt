// What a server writes, for hosts.
ghost use Rattle.std.specs.Prelude.{◌≡◌};
ghost use Rattle.laws.specs.Written.{written};
ghost use Rattle.refusal.specs.Refusal.{passed};
ghost use Rattle.wire_request.specs.Answered.{answered};
ghost use Rattle.server_parts.specs.Delegation.{dele_bytes, cert_bytes};
ghost use Rattle.server_response.specs.Refusing.{reply_code};
ghost use Rattle.server_response.specs.Response.{reply, response_bytes};
ghost use Rattle.server_parts.specs.Signed.{srep_bytes, radius_code};
ghost use Rattle.c_packets.specs.Writing.{tb_wrote};

use c_packets::TbWrote;

// SREP for the root of a batch, a time and its radius, at the front of out.
#[unsafe(no_mangle)]
pub extern "C" fn tb_write_srep(root: &[u8; 32], midp: u64, radi: u32, out: &mut [u8]) -> TbWrote
    ensures value { result
        ≡ tb_wrote (answered (radius_code radi) (srep_bytes root.now midp radi) out.old) }
    ensures out_after { out.new
        ≡ written result.code (srep_bytes root.now midp radi) out.old }
{
    server_parts::write_srep(*root, midp, radi, out).into()
}

// The whole response to a request, at the front of out.
#[unsafe(no_mangle)]
pub extern "C" fn tb_write_response<'a>(
    request: &'a [u8],
    indx: u32,
    root: &[u8; 32],
    path: &'a [u8],
    midp: u64,
    radi: u32,
    cert: &'a [u8],
    signature: &[u8; 64],
    out: &mut [u8],
) -> TbWrote
    ensures value { result
        ≡ tb_wrote
        (answered
        (reply_code
        (reply request.now indx root.now path.now midp radi cert.now
        signature.now))
        (response_bytes
        (reply request.now indx root.now path.now midp radi cert.now
        signature.now))
        out.old) }
    ensures out_after { out.new
        ≡ written result.code
        (response_bytes
        (reply request.now indx root.now path.now midp radi cert.now
        signature.now))
        out.old }
{
    server_response::write_response(
        request, indx, *root, path, midp, radi, cert, *signature, out,
    )
    .into()
}

// DELE for the delegated key and its first and last second, at the front of out.
#[unsafe(no_mangle)]
pub extern "C" fn tb_write_dele(pubk: &[u8; 32], mint: u64, maxt: u64, out: &mut [u8]) -> TbWrote
    ensures value { result ≡ tb_wrote (answered passed (dele_bytes pubk.now mint maxt) out.old) }
    ensures out_after { out.new
        ≡ written result.code (dele_bytes pubk.now mint maxt) out.old }
{
    server_parts::write_dele(*pubk, mint, maxt, out).into()
}

// CERT for the same and the signature over that DELE, at the front of out.
#[unsafe(no_mangle)]
pub extern "C" fn tb_write_cert(
    pubk: &[u8; 32],
    mint: u64,
    maxt: u64,
    signature: &[u8; 64],
    out: &mut [u8],
) -> TbWrote
    ensures value { result
        ≡ tb_wrote
        (answered passed (cert_bytes pubk.now mint maxt signature.now) out.old) }
    ensures out_after { out.new
        ≡ written result.code (cert_bytes pubk.now mint maxt signature.now) out.old }
{
    server_parts::write_cert(*pubk, mint, maxt, *signature, out).into()
}
