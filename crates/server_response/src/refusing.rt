// Which responses are not written.
ghost use Rattle.std.specs.Prelude.{◌≡◌, ◌+◌, ◌≤◌, length};
ghost use Rattle.refusal.specs.Refusal.{passes};
ghost use Rattle.server_response.specs.Facts.{Certifies};
ghost use Rattle.server_response.specs.Refusing.{cert_code, reply_misses, midp_outside};
ghost use Rattle.server_response.specs.Steps.{fit_code, tests_code};

use hash::leaf;
use refusal::{Refusal, codes, refuse};
use server_parts::radius_code;
use tree::leads;
use wire_message::tags::{DELE, MAXT, MINT};
use wire_message::{message_code, value_code, value_of};
use wire_packet::fields::number64;
use wire_packet::request_bad;
use wire_packet::tables::{CERT_TABLE, DELE_TABLE};

// Codes 14; 7 for RADI 0; 4 to 7 for CERT and its DELE; 10; 11; 23. What it takes are parameters of `tb_write_response`,
// as they come from C.
pub fn tests_code<'a>(
    request: &'a [u8],
    indx: u32,
    root: [u8; 32],
    path: &'a [u8],
    midp: u64,
    radi: u32,
    cert: &'a [u8],
) -> Result<(), Refusal>
    ensures { result
        ≡ passes (tests_code request.now indx root path.now midp radi cert.now) }
{
    if request_bad(request) {
        return Err(refuse(codes::REQUEST));
    }
    radius_code(radi)?;
    cert_code(cert)?;
    if reply_misses(request, indx, path, root) {
        return Err(refuse(codes::PATH));
    }
    fit_code(request, midp, cert, path.len())
}

// Codes 4 to 7 of the value of CERT, then of its DELE, with their place in that value.
pub fn cert_code(cert: &[u8]) -> Result<(), Refusal>
    ensures { result ≡ passes (cert_code cert.now) }
{
    message_code(cert, &CERT_TABLE)?;
    value_code(cert, DELE, &DELE_TABLE)
}

// The path does not lead from the leaf of the whole request packet to the root.
fn reply_misses<'a>(request: &'a [u8], indx: u32, path: &'a [u8], root: [u8; 32]) -> bool
    ensures { result ≡ reply_misses request.now indx path.now root }
{
    !leads(leaf(request), indx, path, root)
}

// Codes 11 and 23, where the path has p bytes.
fn fit_code<'a>(request: &'a [u8], midp: u64, cert: &'a [u8], p: usize) -> Result<(), Refusal>
    requires { Certifies cert.now × (p ≤ 1024) }
    ensures { result
        ≡ passes (fit_code request.now midp cert.now (264 + p + length cert.now)) }
{
    if midp_outside(midp, cert) {
        return Err(refuse(codes::TIME));
    }
    if request.len() < 264 + p + cert.len() {
        return Err(refuse(codes::RESPONSE_LENGTH));
    }
    Ok(())
}

// MIDP is outside the MINT..MAXT of a good CERT.
pub fn midp_outside(midp: u64, cert: &[u8]) -> bool
    requires { Certifies cert.now }
    ensures { result ≡ midp_outside midp cert.now }
{
    let dele = value_of(cert, DELE);
    if midp < number64(dele, MINT) {
        return true;
    }
    number64(dele, MAXT) < midp
}
