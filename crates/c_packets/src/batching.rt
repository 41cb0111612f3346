// What a whole batch is answered with, as a struct.
ghost use Rattle.std.specs.Prelude.{◌≡◌};
ghost use Rattle.c_packets.specs.Batching.{tb_batch};

use super::TbBatch;
use refusal::Refusal;

// How many packets were answered, or why nothing was written.
impl From<Result<usize, Refusal>> for TbBatch {
    ghost from_gives = { λ b r. r ≡ tb_batch b };

    fn from(b: Result<usize, Refusal>) -> TbBatch {
        match b {
            Ok(n) => TbBatch {
                code: 0,
                at: 0,
                answered: n as u64,
            },
            Err(why) => TbBatch {
                code: why.code as u32,
                at: why.at as u64,
                answered: 0,
            },
        }
    }
}
