// What the reader and the writer of reports in the public format answer, as structs.
ghost use Rattle.std.specs.Prelude.{◌≡◌};
ghost use Rattle.c_evidence.specs.Publishing.{tb_records, tb_published, tb_forwarded};

use super::{TbForwarded, TbPublished, TbRecords};
use refusal::Refusal;
use report_text::Forwarded;
use report_write::Published;

// How many records were read, or why none were.
impl From<Result<usize, Refusal>> for TbRecords {
    ghost from_gives = { λ a r. r ≡ tb_records a };

    fn from(a: Result<usize, Refusal>) -> TbRecords {
        match a {
            Ok(n) => TbRecords {
                code: 0,
                records: n as u64,
            },
            Err(why) => TbRecords {
                code: why.code as u32,
                records: 0,
            },
        }
    }
}

// How long the text is, or why there is none, with the record and the byte that the refusal carries.
impl From<Published> for TbPublished {
    ghost from_gives = { λ a r. r ≡ tb_published a };

    fn from(a: Published) -> TbPublished {
        match a {
            Ok(n) => TbPublished {
                code: 0,
                place: 0,
                at: 0,
                length: n as u64,
            },
            Err((why, k)) => TbPublished {
                code: why.code as u32,
                place: k as u64,
                at: why.at as u64,
                length: 0,
            },
        }
    }
}

// Which records the run has and how long its text is, or why there is none.
impl From<Forwarded> for TbForwarded {
    ghost from_gives = { λ a r. r ≡ tb_forwarded a };

    fn from(a: Forwarded) -> TbForwarded {
        match a {
            Ok((i, j, n)) => TbForwarded {
                code: 0,
                first: i as u64,
                last: j as u64,
                length: n as u64,
            },
            Err(why) => TbForwarded {
                code: why.code as u32,
                first: 0,
                last: 0,
                length: 0,
            },
        }
    }
}
