// What is said of a pile, as structs.
ghost use Rattle.std.specs.Prelude.{◌≡◌};
ghost use Rattle.c_evidence.specs.Piling.{tb_judged, tb_reported, tb_cut};

use super::{TbCut, TbJudged, TbReported};
use c_packets::verdict_with;
use pile::Judgement;
use pile_report::Report;
use refusal::Refusal;

// What is said of one record, as a struct.
impl From<Judgement> for TbJudged {
    ghost from_gives = { λ j r. r ≡ tb_judged j };

    fn from(j: Judgement) -> TbJudged {
        let told = verdict_with(j.verdict, j.pubk);
        let pubk = told.pubk;
        TbJudged {
            code: told.code,
            radi: told.radi,
            place: j.place as u64,
            at: told.at,
            midp: told.midp,
            low: told.low,
            high: told.high,
            mint: told.mint,
            maxt: told.maxt,
            pubk,
        }
    }
}

// The answer on a report, as a struct: a refusal with the record and the byte that it carries.
impl From<Report> for TbReported {
    ghost from_gives = { λ a r. r ≡ tb_reported a };

    fn from(a: Report) -> TbReported {
        match a {
            Ok((i, j)) => TbReported {
                code: 0,
                place: 0,
                at: 0,
                first: i as u64,
                second: j as u64,
            },
            Err((why, k)) => TbReported {
                code: why.code as u32,
                place: k as u64,
                at: why.at as u64,
                first: 0,
                second: 0,
            },
        }
    }
}

// The answer of the cutter, as a struct.
impl From<Result<(usize, usize), Refusal>> for TbCut {
    ghost from_gives = { λ t r. r ≡ tb_cut t };

    fn from(t: Result<(usize, usize), Refusal>) -> TbCut {
        match t {
            Ok((i, j)) => TbCut {
                code: 0,
                first: i as u64,
                last: j as u64,
            },
            Err(why) => TbCut {
                code: why.code as u32,
                first: 0,
                last: 0,
            },
        }
    }
}
