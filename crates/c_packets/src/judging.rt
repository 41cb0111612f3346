// What the response check answers, as a struct.
ghost use Rattle.std.specs.Prelude.{◌≡◌};
ghost use Rattle.c_packets.specs.Judging.{verdict_with, tb_verdict};

use super::TbVerdict;
use check_response::{Checked, Verdict};

// The answer of the check, as a struct.
impl From<Checked> for TbVerdict {
    ghost from_gives = { λ c r. r ≡ tb_verdict c };

    fn from(c: Checked) -> TbVerdict {
        verdict_with(c.verdict, c.pubk)
    }
}

// A response that passes has code 0 and its window, and one that is refused its code, its place and zeros; the key is
// told as it is, which is zeros beside a refusal.
pub fn verdict_with(v: Verdict, key: [u8; 32]) -> TbVerdict
    ensures { result ≡ verdict_with v key }
{
    match v {
        Ok(w) => TbVerdict {
            code: 0,
            radi: w.radi,
            at: 0,
            midp: w.midp,
            low: w.low,
            high: w.high,
            mint: w.mint,
            maxt: w.maxt,
            pubk: key,
        },
        Err(why) => TbVerdict {
            code: why.code as u32,
            radi: 0,
            at: why.at as u64,
            midp: 0,
            low: 0,
            high: 0,
            mint: 0,
            maxt: 0,
            pubk: key,
        },
    }
}
