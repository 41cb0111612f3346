// The response check: 14 for the request, then 1 to 13.
ghost use Rattle.std.specs.Prelude.{◌≡◌};
ghost use Rattle.refusal.specs.Refusal.{passes};
ghost use Rattle.check_response.specs.Check.{check_code, checked_of, verdict_number};

use super::Checked;
use super::agreement::agreement_code;
use super::windows::{key_in, window_in};
use refusal::{Refusal, codes, refuse};
use wire_packet::packet::body_of;
use wire_packet::{request_bad, response_code};

// Checks a response packet against the request packet that it answers, with the answers for its two signatures: that of
// the delegation, and that of the response. The two bits are what `tb_check_response` is given; they pick no step, but
// are what codes 12 and 13 judge.
pub fn check_response<'a>(
    request: &'a [u8],
    response: &'a [u8],
    delegation: bool,
    signature: bool,
) -> Checked
    ensures verdict_value { verdict_number result.verdict
        ≡ (check_code request.now response.now delegation signature).code }
    ensures value { result ≡ checked_of request.now response.now delegation signature }
{
    match check_code(request, response, delegation, signature) {
        Err(why) => Checked {
            verdict: Err(why),
            pubk: [0u8; 32],
        },
        Ok(()) => {
            let m = body_of(response);
            let w = window_in(m);
            let key = key_in(m);
            Checked {
                verdict: Ok(w),
                pubk: key,
            }
        }
    }
}

// Codes 14 and 1 to 13 of a response, by the two answers.
fn check_code<'a>(
    q: &'a [u8],
    p: &'a [u8],
    delegation: bool,
    signature: bool,
) -> Result<(), Refusal>
    ensures { result ≡ passes (check_code q.now p.now delegation signature) }
{
    if request_bad(q) {
        return Err(refuse(codes::REQUEST));
    }
    response_code(p)?;
    agreement_code(q, body_of(q), body_of(p), delegation, signature)
}
