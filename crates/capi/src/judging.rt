// The response check for hosts.
ghost use Rattle.std.specs.Prelude.{◌≡◌, eqb};
ghost use Rattle.check_response.specs.Check.{checked_of};
ghost use Rattle.c_packets.specs.Judging.{tb_verdict};

use c_packets::{TbVerdict, yes};

// Checks a response packet against the request packet that it answers, with the answers for its two signatures, of
// which only 1 is a yes.
#[unsafe(no_mangle)]
pub extern "C" fn tb_check_response<'a>(
    request: &'a [u8],
    response: &'a [u8],
    delegation: u32,
    signature: u32,
) -> TbVerdict
    ensures { result
        ≡ tb_verdict (checked_of request.now response.now (eqb delegation 1) (eqb signature 1)) }
{
    check_response::check_response(request, response, yes(delegation), yes(signature)).into()
}
