// Stamps of old captures for hosts.
ghost use Rattle.std.specs.Prelude.{◌≡◌};
ghost use Rattle.old_stamp.specs.Window.{stamped_of};
ghost use Rattle.c_packets.specs.Stamping.{tb_old};

use c_packets::TbOld;

// The window of a stamp of the 2021 draft, with its radius in microseconds.
#[unsafe(no_mangle)]
pub extern "C" fn tb_old_window(midp: u64, radi: u32) -> TbOld
    ensures { result ≡ tb_old (stamped_of midp radi) }
{
    old_stamp::old_window(midp, radi).into()
}
