// The checks that verify signatures by themselves, for hosts.
ghost use Rattle.std.specs.Prelude.{◌≡◌};
ghost use Rattle.check_response.specs.Check.{checked_of};
ghost use Rattle.pile.specs.Valid.{judgement_of};
ghost use Rattle.check_signatures.specs.SignatureAnswers.{delegated, responded, answers_of};
ghost use Rattle.pile_signed.specs.OwnAnswers.{own_answers};
ghost use Rattle.c_packets.specs.Judging.{tb_verdict};
ghost use Rattle.c_evidence.specs.Piling.{tb_judged};
ghost use Rattle.c_evidence.specs.Signing.{tb_answers};
ghost use Rattle.capi.specs.Piling.{Checks, Cuts};

use c_evidence::{TbCut, TbJudged, TbReported};
use c_packets::TbVerdict;

// Whether the two signatures of a response packet verify, the delegation's under the server's long-term key.
#[unsafe(no_mangle)]
pub extern "C" fn tb_answers(key: &[u8; 32], response: &[u8], out: &mut [u8; 2])
    ensures { out.new ≡ tb_answers (answers_of key.now response.now) }
{
    let a = c_evidence::answers_told(check_signatures::answers(*key, response));
    *out = a;
}

// Checks a response packet against the request packet that it answers, and its two signatures.
#[unsafe(no_mangle)]
pub extern "C" fn tb_check_signed<'a>(
    key: &[u8; 32],
    request: &'a [u8],
    response: &'a [u8],
) -> TbVerdict
    ensures { result
        ≡ tb_verdict (checked_of request.now response.now
        (delegated key.now response.now) (responded response.now)) }
{
    check_signatures::check_signed(*key, request, response).into()
}

// What is said of the record at a place, by the key that stands in it.
#[unsafe(no_mangle)]
pub extern "C" fn tb_judge_signed(pile: &[u8], place: usize) -> TbJudged
    ensures { result ≡ tb_judged (judgement_of pile.now (own_answers pile.now) place) }
{
    pile_signed::judge_signed(pile, place).into()
}

// Whether a pile is a report, and the pair that it names.
#[unsafe(no_mangle)]
pub extern "C" fn tb_check_signed_report(pile: &[u8]) -> TbReported
    ensures { Checks pile.now (own_answers pile.now) result }
{
    pile_signed::check_signed_report(pile).into()
}

// The shortest run that convicts by itself, at the front of out.
#[unsafe(no_mangle)]
pub extern "C" fn tb_cut_signed_run(pile: &[u8], out: &mut [u8]) -> TbCut
    ensures { Cuts pile.now (own_answers pile.now) out.old result
        out.new }
{
    pile_signed::cut_signed_run(pile, out).into()
}
