//! The timers of key agreement (IEEE Std 802.1X, clause 9), in ticks of 0.1 s.

ghost use Rattle.std.specs.Prelude.{◌≡◌};
ghost use Rattle.lan_base.specs.Timers.{hello_time, life_time, retire_time};

/// MKA Hello Time, 2.0 s: a station that has nothing new to say announces itself this long after
/// the last time.
pub const HELLO_TIME: u32 = 20;

/// MKA Life Time, 6.0 s: what came this long ago counts no more.
pub const LIFE_TIME: u32 = 60;

/// SAK Retire Time, 3.0 s: an old key is kept this long after a new one is begun.
pub const RETIRE_TIME: u32 = 30;

/// The timers of the code are those of the definitions.
pub fn law_timers()
    ensures hello { HELLO_TIME ≡ hello_time }
    ensures life { LIFE_TIME ≡ life_time }
    ensures retire { RETIRE_TIME ≡ retire_time }
{}
