// The answers for a pile that comes alone.
ghost use Rattle.std.specs.Prelude.{◌≡◌, ◌≤◌, length};
ghost use Rattle.laws.specs.Written.{written};
ghost use Rattle.pile.specs.Pile.{length_bad};
ghost use Rattle.refusal.specs.Refusal.{when};
ghost use Rattle.wire_request.specs.Answered.{wrote_number, wrote_length, answered};
ghost use Rattle.pile_signed.specs.OwnAnswers.{own_answers};

use pile_signed::pile_answers;

// The answers of our own Ed25519 at the front of out, and how many bytes they are: none where the pile is not 1 to 16
// whole records, or out is too short.
pub fn put_answers(pile: &[u8], out: &mut [u8]) -> usize
    ensures upper_bound { (result ≤ length out.old)
        × (result ≡ wrote_length (answered (when (length_bad pile.now) 15) (own_answers pile.now)
        out.old)) }
    ensures out_after { out.new
        ≡ written (wrote_number (answered (when (length_bad pile.now) 15) (own_answers pile.now)
        out.old)) (own_answers pile.now) out.old }
{
    match pile_answers(pile, out) {
        Ok(n) => n,
        Err(_) => 0,
    }
}
