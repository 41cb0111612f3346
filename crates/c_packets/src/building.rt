// What the builders of trees answer, as structs.
ghost use Rattle.std.specs.Prelude.{◌≡◌};
ghost use Rattle.c_packets.specs.Building.{tb_rooted, tb_placed, tb_laid};

use super::numbers::number;
use super::{TbLaid, TbPlaced, TbRooted};
use refusal::Refusal;
use tree_build::Rooted;

// The root of a batch, as a struct.
impl From<Result<Rooted, Refusal>> for TbRooted {
    ghost from_gives = { λ t r. r ≡ tb_rooted t };

    fn from(t: Result<Rooted, Refusal>) -> TbRooted {
        match t {
            Ok(rooted) => {
                let root = rooted.root;
                TbRooted {
                    code: 0,
                    depth: rooted.depth,
                    root,
                }
            }
            Err(why) => TbRooted {
                code: number(why),
                depth: 0,
                root: [0u8; 32],
            },
        }
    }
}

// The answer of a writer of a path, as a struct.
impl From<Result<(u32, u32), Refusal>> for TbPlaced {
    ghost from_gives = { λ p r. r ≡ tb_placed p };

    fn from(p: Result<(u32, u32), Refusal>) -> TbPlaced {
        match p {
            Ok((indx, depth)) => TbPlaced {
                code: 0,
                indx: indx,
                depth: depth,
            },
            Err(why) => TbPlaced {
                code: why.code as u32,
                indx: 0,
                depth: 0,
            },
        }
    }
}

// The answer of the writer of all rows, as a struct, where rows have so many bytes. No `From`: two values make it, and a
// call with a pair of them is no plainer.
pub fn rows_told(l: Result<u32, Refusal>, length: usize) -> TbLaid
    ensures { result ≡ tb_laid l length }
{
    match l {
        Ok(depth) => TbLaid {
            code: 0,
            depth: depth,
            length: length as u64,
        },
        Err(why) => TbLaid {
            code: why.code as u32,
            depth: 0,
            length: 0,
        },
    }
}
