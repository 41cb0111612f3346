// An old stamp: its date and the microseconds of that day, code 29, and its window.
ghost use Rattle.std.specs.Prelude.{◌≡◌, ◌^◌, ◌≤◌, ◌<◌};
ghost use Rattle.old_stamp.specs.Stamp.{stamp_code, moment_at};
ghost use Rattle.old_stamp.specs.Window.{stamped_of, stamped_number};

use super::OldWindow;
use super::ends::{SECOND, high_end, low_end};
use refusal::{Refusal, codes, refuse};

// One of the date: the low 5 bytes of a stamp count below it.
const DATE: u64 = 0x100_0000_0000;

// The date of 1 January 1970.
const DAY_ZERO: u64 = 40_587;

// The microseconds of a day, without a leap second.
const DAY: u64 = 86_400 * SECOND;

// Where the microseconds of a day end, with a leap second.
const LIMIT: u64 = DAY + SECOND;

// The window of a stamp and a radius in microseconds.
pub fn old_window(stamp: u64, radi: u32) -> Result<OldWindow, Refusal>
    ensures result_value { stamped_number result ≡ (stamp_code stamp).code }
    ensures value { result ≡ stamped_of stamp radi }
{
    let date = stamp / DATE;
    let micros = stamp % DATE;
    if date < DAY_ZERO {
        return Err(refuse(codes::OLD_STAMP));
    }
    if LIMIT <= micros {
        return Err(refuse(codes::OLD_STAMP));
    }
    let wide = u64::from(radi);
    let t = moment(date, micros);
    Ok(OldWindow {
        low: low_end(t, wide),
        high: high_end(t, wide),
    })
}

// The microseconds since 1970 at a date and microseconds of that day. A leap second is the next midnight.
fn moment(date: u64, micros: u64) -> u64
    requires le_date { 40587 ≤ date }
    requires date_bound { date < 2 ^ 24 }
    requires micros_bound { micros < 2 ^ 40 }
    ensures { result ≡ moment_at date micros }
{
    (date - DAY_ZERO) * DAY + micros.min(DAY)
}
