// Whether a response agrees with the request that it answers: codes 8 to 13, on messages of the right shape.
ghost use Rattle.std.specs.Prelude.{◌≡◌};
ghost use Rattle.refusal.specs.Refusal.{passes};
ghost use Rattle.wire_packet.specs.Facts.{Asks, Shaped};
ghost use Rattle.check_response.specs.Check.{version_unasked, version_downgraded, nonce_differs, path_misses, time_outside};
ghost use Rattle.check_response.specs.Check.{answers_code, agreement_code};

use super::downgrading::downgrades_to;
use hash::leaf;
use octets::equal;
use refusal::{Refusal, codes, refuse};
use tree::leads;
use wire_message::tags::{INDX, MAXT, MIDP, MINT, NONC, PATH, ROOT, SREP, VER, VERS};
use wire_message::value_of;
use wire_packet::fields::{lacks_version, number32, number64, value32};
use wire_packet::{dele_of, srep_version};

// Codes 8 to 13 of the response's message b, to the packet q whose message is a, with the two signature answers, which
// are bits of the C interface. What a and b say is asked here, and of each check for the message that it reads.
pub fn agreement_code<'a>(
    q: &'a [u8],
    a: &'a [u8],
    b: &'a [u8],
    delegation: bool,
    signature: bool,
) -> Result<(), Refusal>
    requires { Asks a.now × Shaped b.now }
    ensures { result
        ≡ passes (agreement_code q.now a.now b.now delegation signature) }
{
    if version_unasked(a, b) {
        return Err(refuse(codes::TYPE_OR_VERSION));
    }
    if version_downgraded(a, b) {
        return Err(refuse(codes::TYPE_OR_VERSION));
    }
    if nonce_differs(a, b) {
        return Err(refuse(codes::NONCE));
    }
    if path_misses(q, b) {
        return Err(refuse(codes::PATH));
    }
    if time_outside(b) {
        return Err(refuse(codes::TIME));
    }
    answers_code(delegation, signature)
}

// Codes 12 and 13 of the two signature answers: what is judged here are the bits themselves.
fn answers_code(delegation: bool, signature: bool) -> Result<(), Refusal>
    ensures { result ≡ passes (answers_code delegation signature) }
{
    if !delegation {
        return Err(refuse(codes::DELEGATION));
    }
    if !signature {
        return Err(refuse(codes::SIGNATURE));
    }
    Ok(())
}

// SREP's version does not stand in the request's VER.
fn version_unasked<'a>(a: &'a [u8], b: &'a [u8]) -> bool
    requires { Asks a.now × Shaped b.now }
    ensures { result ≡ version_unasked a.now b.now }
{
    lacks_version(a, VER, srep_version(b))
}

// A version that stands in both VERS and the request's VER is above SREP's.
fn version_downgraded<'a>(a: &'a [u8], b: &'a [u8]) -> bool
    requires { Asks a.now × Shaped b.now }
    ensures { result ≡ version_downgraded a.now b.now }
{
    let srep = value_of(b, SREP);
    downgrades_to(value_of(srep, VERS), value_of(a, VER), srep_version(b))
}

// NONC is not the request's.
fn nonce_differs<'a>(a: &'a [u8], b: &'a [u8]) -> bool
    requires { Asks a.now × Shaped b.now }
    ensures { result ≡ nonce_differs a.now b.now }
{
    !equal(value_of(a, NONC), value_of(b, NONC))
}

// INDX is too large, or PATH does not lead from the leaf of the whole request packet to ROOT.
fn path_misses<'a>(q: &'a [u8], b: &'a [u8]) -> bool
    requires { Shaped b.now }
    ensures { result ≡ path_misses q.now b.now }
{
    let root = value32(value_of(b, SREP), ROOT);
    !leads(leaf(q), number32(b, INDX), value_of(b, PATH), root)
}

// MIDP is outside MINT..MAXT.
fn time_outside(b: &[u8]) -> bool
    requires { Shaped b.now }
    ensures { result ≡ time_outside b.now }
{
    let midp = number64(value_of(b, SREP), MIDP);
    let dele = dele_of(b);
    if midp < number64(dele, MINT) {
        return true;
    }
    number64(dele, MAXT) < midp
}
