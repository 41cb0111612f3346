// Server lists for hosts.
ghost use Rattle.std.specs.Prelude.{◌≡◌};
ghost use Rattle.server_list.specs.Lookup.{sought};
ghost use Rattle.c_packets.specs.Finding.{tb_found};

use c_packets::TbFound;
use server_list::Where;

// Where the record of the server with this SRV value stands: in which list, and at which byte. A reference cannot be
// handed to C, so the host takes the 64 bytes from there on itself. No `From` makes the struct: that the product is a
// number of 64 bits is known only of a place in a list that was lent.
#[unsafe(no_mangle)]
pub extern "C" fn tb_find_server<'a>(owner: &'a [u8], shipped: &'a [u8], srv: &[u8; 32]) -> TbFound
    ensures { result ≡ tb_found (sought owner.now shipped.now srv.now) }
{
    match server_list::search(owner, shipped, *srv) {
        Ok(Where::Owner(k)) => TbFound {
            code: 0,
            list: 0,
            offset: (k * 64) as u64,
        },
        Ok(Where::Shipped(k)) => TbFound {
            code: 0,
            list: 1,
            offset: (k * 64) as u64,
        },
        Err(why) => TbFound {
            code: why.code as u32,
            list: 0,
            offset: 0,
        },
    }
}
