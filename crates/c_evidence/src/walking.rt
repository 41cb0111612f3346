// What the measuring walk answers, as structs.
ghost use Rattle.std.specs.Prelude.{◌≡◌, Ok};
ghost use Rattle.walk.specs.Taking.{said_in};
ghost use Rattle.c_evidence.specs.Walking.{tb_asked, stands_at, end_told, tb_took};

use super::{TbAsked, TbTook};
use check_response::Window;
use pile_report::Report;
use refusal::{Refusal, codes};
use walk::{Asked, Said, Stepped};

// What is asked next, as a struct. Beside a refusal stand zeros.
impl From<Result<Asked, Refusal>> for TbAsked {
    ghost from_gives = { λ a r. r ≡ tb_asked a };

    fn from(a: Result<Asked, Refusal>) -> TbAsked {
        match a {
            Ok(next) => {
                let nonce = next.nonce;
                TbAsked {
                    code: 0,
                    server: next.server as u64,
                    nonce,
                }
            }
            Err(why) => TbAsked {
                code: why.code as u32,
                server: 0,
                nonce: [0u8; 32],
            },
        }
    }
}

// The answer on a response, as a struct. Beside a refusal nothing is said of the walk, which is 0: no number that
// stands beside a refusal reads as "go on".
impl From<Result<Stepped, Refusal>> for TbTook {
    ghost from_gives = { λ s r. r ≡ tb_took (said_in s) };

    fn from(s: Result<Stepped, Refusal>) -> TbTook {
        match s {
            Ok(t) => t.said.into(),
            Err(why) => TbTook {
                code: why.code as u32,
                outcome: 0,
                at: why.at as u64,
                first: 0,
                second: 0,
                midp: 0,
                low: 0,
                high: 0,
                mint: 0,
                maxt: 0,
                radi: 0,
            },
        }
    }
}

// What is said of an accepted response, as a struct.
impl From<Said> for TbTook {
    ghost from_gives = { λ s r. r ≡ tb_took (Ok s) };

    fn from(s: Said) -> TbTook {
        match s {
            Said::Next(v) => stands_at(1, v, 0, 0),
            Said::Ended(v, r) => (v, r).into(),
        }
    }
}

// The end of a walk: malfeasance where the report check names a pair, consistent where it says 18. A pile that it
// refuses otherwise is not what the walk wrote, and is told as that.
impl From<(Window, Report)> for TbTook {
    ghost from_gives = { λ e r. r ≡ end_told e.0 e.1 };

    fn from(end: (Window, Report)) -> TbTook {
        let (v, r) = end;
        match r {
            Ok((i, j)) => stands_at(3, v, i, j),
            Err((why, _)) => {
                if why.code == codes::NO_CONTRADICTION {
                    return stands_at(2, v, 0, 0);
                }
                stands_at(4, v, 0, 0)
            }
        }
    }
}

// How the walk stands with an accepted response of this window, and the two records that are named.
fn stands_at(outcome: u32, v: Window, first: usize, second: usize) -> TbTook
    ensures { result ≡ stands_at outcome v first second }
{
    TbTook {
        code: 0,
        outcome: outcome,
        at: 0,
        first: first as u64,
        second: second as u64,
        midp: v.midp,
        low: v.low,
        high: v.high,
        mint: v.mint,
        maxt: v.maxt,
        radi: v.radi,
    }
}
