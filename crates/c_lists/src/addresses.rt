// What is told of an address in a server list, as a struct.
ghost use Rattle.std.specs.Prelude.{◌≡◌};
ghost use Rattle.c_lists.specs.Listing.{tb_addressed};

use super::TbAddressed;
use list_parts::Addressed;
use refusal::Refusal;

// How many octets it has, with its protocol, or why none were written.
impl From<Result<Addressed, Refusal>> for TbAddressed {
    ghost from_gives = { λ a r. r ≡ tb_addressed a };

    fn from(a: Result<Addressed, Refusal>) -> TbAddressed {
        match a {
            Ok(Addressed::Udp(n)) => TbAddressed {
                code: 0,
                tcp: 0,
                length: n as u64,
            },
            Ok(Addressed::Tcp(n)) => TbAddressed {
                code: 0,
                tcp: 1,
                length: n as u64,
            },
            Err(why) => TbAddressed {
                code: why.code as u32,
                tcp: 0,
                length: 0,
            },
        }
    }
}
