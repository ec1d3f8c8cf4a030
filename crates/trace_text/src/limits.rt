//! The numbers that only a trace's lines have.

ghost use Rattle.std.specs.Prelude.{◌≡◌};
ghost use Rattle.trace_text.specs.Limits.{least_rekey, most_burst_frames, most_bursts, most_control, most_digits, most_injected, most_lag, most_line, most_priority, most_workers};

/// The most octets of a line, without its ending.
pub const MAX_LINE: usize = 4096;

/// How many digits a number may have.
pub const MAX_DIGITS: usize = 10;

/// The most flow rounds that a frame waits.
pub const MAX_LAG: u32 = 1000;

/// The lowest packet number from which a key may be spent.
pub const MIN_REKEY: u32 = 2;

/// The greatest priority of a station.
pub const MAX_PRIORITY: u32 = 255;

/// The most bursts of a race.
pub const MAX_BURSTS: usize = 8;

/// The most lines of control of a race.
pub const MAX_CONTROL: usize = 1_000;

/// The most workers of a burst, and of a station in a race.
pub const MAX_WORKERS: u32 = 8;

/// The most frames of a burst.
pub const MAX_BURST_FRAMES: u32 = 100_000;

/// The most octets that a line injects.
pub const MAX_INJECTED: usize = 1600;

/// The limits of the code are those of the definitions.
pub fn law_limits()
    ensures line { MAX_LINE ≡ most_line }
    ensures digits { MAX_DIGITS ≡ most_digits }
    ensures lag { MAX_LAG ≡ most_lag }
    ensures rekey { MIN_REKEY ≡ least_rekey }
    ensures priority { MAX_PRIORITY ≡ most_priority }
    ensures bursts { MAX_BURSTS ≡ most_bursts }
    ensures control { MAX_CONTROL ≡ most_control }
    ensures workers { MAX_WORKERS ≡ most_workers }
    ensures burst { MAX_BURST_FRAMES ≡ most_burst_frames }
    ensures injected { MAX_INJECTED ≡ most_injected }
{}
