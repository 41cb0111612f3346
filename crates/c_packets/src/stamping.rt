// The window of an old stamp, as a struct.
ghost use Rattle.std.specs.Prelude.{◌≡◌};
ghost use Rattle.c_packets.specs.Stamping.{tb_old};

use super::TbOld;
use old_stamp::OldWindow;
use refusal::Refusal;

// A stamp that passes has code 0 and the ends of its window, and one that is refused its code and zeros.
impl From<Result<OldWindow, Refusal>> for TbOld {
    ghost from_gives = { λ s r. r ≡ tb_old s };

    fn from(s: Result<OldWindow, Refusal>) -> TbOld {
        match s {
            Ok(w) => TbOld {
                code: 0,
                low: w.low,
                high: w.high,
            },
            Err(why) => TbOld {
                code: why.code as u32,
                low: 0,
                high: 0,
            },
        }
    }
}
