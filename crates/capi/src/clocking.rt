// The clock, for hosts. The state is memory of the host's, a struct of six fields. Each crosses by itself, those that
// change as pointers, and the header's inline functions take the struct.
ghost use Rattle.std.specs.Prelude.{◌≡◌};
ghost use Rattle.clock.specs.State.{number, started_of, taken_of};
ghost use Rattle.clock.specs.Answer.{answer_of};
ghost use Rattle.c_packets.specs.Clocking.{tb_time};
ghost use Rattle.capi.specs.Clocking.{columns, clock_of, kept_of, drift_after, columns_after};

use c_packets::{Columns, TbTime, rows};
use clock::Clock;
use clock_spans::Kept;

// Starts a clock: 0 or 32. On a refusal the state stays.
#[unsafe(no_mangle)]
pub extern "C" fn tb_clock_start_fields(
    drift: &mut u32,
    low: &mut [u64; 16],
    high: &mut [u64; 16],
    maxt: &mut [u64; 16],
    sent: &mut [u64; 16],
    received: &mut [u64; 16],
    bound: u32,
) -> u32
    ensures { (result ≡ number (started_of bound))
        × (drift.new ≡ drift_after drift.old (started_of bound))
        × (columns low.new high.new maxt.new sent.new received.new
        ≡ columns_after (columns low.old high.old maxt.old sent.old received.old)
        (started_of bound)) }
{
    match clock::start(bound) {
        Ok(next) => {
            let blank = next.kept;
            let Columns {
                low: l,
                high: h,
                maxt: m,
                sent: s,
                received: r,
            } = Columns::from(blank);
            *drift = next.drift;
            *low = l;
            *high = h;
            *maxt = m;
            *sent = s;
            *received = r;
            0
        }
        Err(why) => c_packets::number(why),
    }
}

// Takes a window of a server: 0, 32 or 26. On a refusal the state stays.
#[unsafe(no_mangle)]
pub extern "C" fn tb_clock_take_fields(
    drift: u32,
    low: &mut [u64; 16],
    high: &mut [u64; 16],
    maxt: &mut [u64; 16],
    sent: &mut [u64; 16],
    received: &mut [u64; 16],
    server: u64,
    window_low: u64,
    window_high: u64,
    window_maxt: u64,
    window_sent: u64,
    window_received: u64,
) -> u32
    ensures { (result ≡ number (taken_of
        (clock_of drift (columns low.old high.old maxt.old sent.old received.old)) server
        (kept_of window_low window_high window_maxt window_sent window_received)))
        × (columns low.new high.new maxt.new sent.new received.new
        ≡ columns_after (columns low.old high.old maxt.old sent.old received.old)
        (taken_of
        (clock_of drift (columns low.old high.old maxt.old sent.old received.old)) server
        (kept_of window_low window_high window_maxt window_sent window_received))) }
{
    let before = Columns {
        low: *low,
        high: *high,
        maxt: *maxt,
        sent: *sent,
        received: *received,
    };
    let kept = rows(before);
    let c = Clock { drift, kept };
    let w = Kept {
        low: window_low,
        high: window_high,
        maxt: window_maxt,
        sent: window_sent,
        received: window_received,
    };
    match clock::take(c, server as usize, w) {
        Ok(next) => {
            let Columns {
                low: l,
                high: h,
                maxt: m,
                sent: s,
                received: r,
            } = Columns::from(next.kept);
            *low = l;
            *high = h;
            *maxt = m;
            *sent = s;
            *received = r;
            0
        }
        Err(why) => c_packets::number(why),
    }
}

// The time at a moment.
#[unsafe(no_mangle)]
pub extern "C" fn tb_clock_now_fields(
    drift: u32,
    low: &[u64; 16],
    high: &[u64; 16],
    maxt: &[u64; 16],
    sent: &[u64; 16],
    received: &[u64; 16],
    moment: u64,
    liars: u64,
) -> TbTime
    ensures { result ≡ tb_time (answer_of
        (clock_of drift (columns low.now high.now maxt.now sent.now received.now))
        moment liars) }
{
    let fields = Columns {
        low: *low,
        high: *high,
        maxt: *maxt,
        sent: *sent,
        received: *received,
    };
    let kept = rows(fields);
    let c = Clock { drift, kept };
    clock::time_at(c, moment, liars).into()
}
