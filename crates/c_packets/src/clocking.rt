// The windows of a clock as C has them, and the time at a moment as a struct.
ghost use Rattle.std.specs.Prelude.{◌≡◌, ◌<◌};
ghost use Rattle.c_packets.specs.Clocking.{rows_of, columns_of, tb_time};

use super::TbTime;
use clock::Time;
use clock_spans::Kept;
use refusal::Refusal;
use std::array;

// The windows of a state, with an array for each of their numbers: so they lie in the struct that C has.
#[derive(Clone, Copy)]
pub struct Columns {
    pub low: [u64; 16],
    pub high: [u64; 16],
    pub maxt: [u64; 16],
    pub sent: [u64; 16],
    pub received: [u64; 16],
}

// Window after window.
pub fn rows(k: Columns) -> [Kept; 16]
    ensures { result ≡ rows_of k }
{
    array::from_fn(
        |i|
            requires { i < 16 }
        {
            Kept {
                low: k.low[i],
                high: k.high[i],
                maxt: k.maxt[i],
                sent: k.sent[i],
                received: k.received[i],
            }
        },
    )
}

impl From<[Kept; 16]> for Columns {
    ghost from_gives = { λ ws r. r ≡ columns_of ws };

    fn from(ws: [Kept; 16]) -> Columns {
        let low = ws.map(|w| w.low);
        let high = ws.map(|w| w.high);
        let maxt = ws.map(|w| w.maxt);
        let sent = ws.map(|w| w.sent);
        let received = ws.map(|w| w.received);
        Columns {
            low,
            high,
            maxt,
            sent,
            received,
        }
    }
}

// A time has code 0, and a refusal its code and zeros.
impl From<Result<Time, Refusal>> for TbTime {
    ghost from_gives = { λ a r. r ≡ tb_time a };

    fn from(a: Result<Time, Refusal>) -> TbTime {
        match a {
            Ok(t) => TbTime {
                code: 0,
                stopped: u32::from(t.stopped),
                low: t.low,
                high: t.high,
                counted: t.counted,
                agree: t.agree,
                suspects: t.suspects,
            },
            Err(why) => TbTime {
                code: why.code as u32,
                stopped: 0,
                low: 0,
                high: 0,
                counted: 0,
                agree: 0,
                suspects: 0,
            },
        }
    }
}
