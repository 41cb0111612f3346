// The ends of a window, in seconds: of a moment and a radius in microseconds.
ghost use Rattle.std.specs.Prelude.{◌≡◌, ◌^◌, ◌<◌};
ghost use Rattle.old_stamp.specs.Window.{low_at, high_at};

// The microseconds of a second.
pub const SECOND: u64 = 1_000_000;

// The start, rounded down; 0 where it is before 1970.
pub fn low_end(t: u64, radi: u64) -> u64
    ensures { result ≡ low_at t radi }
{
    t.saturating_sub(radi) / SECOND
}

// The end, rounded up.
pub fn high_end(t: u64, radi: u64) -> u64
    requires t_bound { t < 2 ^ 62 }
    requires radi_bound { radi < 2 ^ 62 }
    ensures { result ≡ high_at t radi }
{
    (t + radi).div_ceil(SECOND)
}
