// What the writers of bytes answer, as a struct.
ghost use Rattle.std.specs.Prelude.{◌≡◌};
ghost use Rattle.c_packets.specs.Writing.{tb_wrote};

use super::TbWrote;
use refusal::Refusal;

// How many bytes were written, or why none were.
impl From<Result<usize, Refusal>> for TbWrote {
    ghost from_gives = { λ w r. r ≡ tb_wrote w };

    fn from(w: Result<usize, Refusal>) -> TbWrote {
        match w {
            Ok(n) => TbWrote {
                code: 0,
                at: 0,
                length: n as u64,
            },
            Err(why) => TbWrote {
                code: why.code as u32,
                at: why.at as u64,
                length: 0,
            },
        }
    }
}
