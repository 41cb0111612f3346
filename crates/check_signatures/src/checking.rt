// The response check with no answers lent.
ghost use Rattle.std.specs.Prelude.{◌≡◌};
ghost use Rattle.check_response.specs.Check.{check_code, checked_of, verdict_number};
ghost use Rattle.check_signatures.specs.SignatureAnswers.{delegated, responded};

use super::verifying::signature_code;
use check_response::{Checked, check_response};
use wire_packet::packet::body_of;

// Checks a response packet against the request packet that it answers, and its two signatures under the server's
// long-term key. They are verified only where the check passes with two answers of yes: 12 and 13 come last.
pub fn check_signed<'a>(key: [u8; 32], request: &'a [u8], response: &'a [u8]) -> Checked
    ensures verdict_value { verdict_number result.verdict
        ≡ (check_code request.now response.now (delegated key response.now)
        (responded response.now)).code }
    ensures value { result
        ≡ checked_of request.now response.now (delegated key response.now)
        (responded response.now) }
{
    let c = check_response(request, response, true, true);
    let v = c.verdict;
    match v {
        Err(_) => c,
        Ok(_) => match signature_code(key, body_of(response)) {
            Err(why) => Checked {
                verdict: Err(why),
                pubk: [0u8; 32],
            },
            Ok(()) => c,
        },
    }
}
