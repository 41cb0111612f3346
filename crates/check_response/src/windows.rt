// What comes out of a response that passes: its window and its key. No sum or difference wraps, whatever MIDP and RADI
// are.
ghost use Rattle.std.specs.Prelude.{◌≡◌};
ghost use Rattle.wire_packet.specs.Facts.{Shaped};
ghost use Rattle.check_response.specs.Window.{low_of, high_of, window_of};
ghost use Rattle.check_response.specs.Check.{window_in, pubk_in};

use super::Window;
use wire_message::tags::{MAXT, MIDP, MINT, PUBK, RADI, SREP};
use wire_message::value_of;
use wire_packet::dele_of;
use wire_packet::fields::{number32, number64, value32};

// The largest time.
const LAST: u64 = 0xffff_ffff_ffff_ffff;

// The window of a time and its radius, with the times for which its key is trusted.
fn window_at(midp: u64, radi: u32, mint: u64, maxt: u64) -> Window
    ensures { result ≡ window_of midp radi mint maxt }
{
    let wide = radi as u64;
    Window {
        midp: midp,
        radi: radi,
        low: low_end(midp, wide),
        high: high_end(midp, wide),
        mint: mint,
        maxt: maxt,
    }
}

// max(0, MIDP - RADI).
pub fn low_end(midp: u64, radi: u64) -> u64
    ensures { result ≡ low_of midp radi }
{
    if radi <= midp { midp - radi } else { 0 }
}

// min(2^64 - 1, MIDP + RADI).
fn high_end(midp: u64, radi: u64) -> u64
    ensures { result ≡ high_of midp radi }
{
    if midp <= LAST - radi {
        midp + radi
    } else {
        LAST
    }
}

// The window of a response's message.
pub fn window_in(m: &[u8]) -> Window
    requires { Shaped m.now }
    ensures { result ≡ window_in m.now }
{
    let srep = value_of(m, SREP);
    let midp = number64(srep, MIDP);
    let radi = number32(srep, RADI);
    let dele = dele_of(m);
    let mint = number64(dele, MINT);
    let maxt = number64(dele, MAXT);
    window_at(midp, radi, mint, maxt)
}

// The delegated key of a response's message.
pub fn key_in(m: &[u8]) -> [u8; 32]
    requires { Shaped m.now }
    ensures { result ≡ pubk_in m.now }
{
    value32(dele_of(m), PUBK)
}
