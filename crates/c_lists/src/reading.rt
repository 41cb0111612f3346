// What the reader of server lists answers, as a struct.
ghost use Rattle.std.specs.Prelude.{◌≡◌};
ghost use Rattle.c_lists.specs.Listing.{tb_servers};

use super::TbServers;
use refusal::Refusal;

// How many records were read and how many servers were passed over, or why nothing was written.
impl From<Result<(usize, usize), Refusal>> for TbServers {
    ghost from_gives = { λ a r. r ≡ tb_servers a };

    fn from(a: Result<(usize, usize), Refusal>) -> TbServers {
        match a {
            Ok((n, m)) => TbServers {
                code: 0,
                records: n as u64,
                passed_over: m as u64,
            },
            Err(why) => TbServers {
                code: why.code as u32,
                records: 0,
                passed_over: 0,
            },
        }
    }
}
