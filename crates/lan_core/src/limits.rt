//! The limits of the profile.

ghost use Rattle.std.specs.Prelude.{◌≡◌, nat_lt, if◌then◌else◌, option_map, Some, None};
ghost use Rattle.lan_core.specs.declared.stop.Stop.TheVariants.{Limit};
ghost use Rattle.lan_core.specs.declared.stop.Which.TheVariants.{Keys};
ghost use Rattle.lan_core.specs.Order.{most_installs, most_octets, most_stations};
ghost use Rattle.lan_core.specs.inside.Judging.{Judges};
ghost use Rattle.lan_core.specs.inside.Limits.{passed_by};

use crate::stop::{Stop, Which};
use lan_base::{FRAMES_MAX, TICKS_MAX};

/// The most octets on the air.
pub const OCTETS_MAX: u64 = 67_108_864;

/// The most installs at one station, over all its lives.
pub const INSTALLS_MAX: u32 = 4_096;

/// The most stations.
pub const STATIONS_MAX: usize = 16;

/// The limits of the code are those of the definitions.
pub fn law_limits()
    ensures octets { OCTETS_MAX ≡ most_octets }
    ensures installs { INSTALLS_MAX ≡ most_installs }
    ensures stations { STATIONS_MAX ≡ most_stations }
{}

/// How far a group comes in each of what is limited.
#[derive(Clone, Copy)]
pub struct Extent {
    /// Frames on the air.
    pub frames: usize,
    /// Octets on the air.
    pub octets: u64,
    pub ticks: u32,
    /// Installs at the station of the event.
    pub installs: u32,
    pub stations: usize,
}

impl Extent {
    /// The first limit that is passed stops the group.
    pub fn judge(&self) -> Result<(), Stop>
        ensures { Judges (option_map Limit (passed_by self.now.frames self.now.octets self.now.ticks
            self.now.installs self.now.stations)) result }
    {
        match self.passed() {
            Some(which) => Err(Stop::Limit(which)),
            None => Ok(()),
        }
    }

    /// The first limit that is passed.
    fn passed(&self) -> Option<Which>
        ensures { result ≡ passed_by self.now.frames self.now.octets self.now.ticks
            self.now.installs self.now.stations }
    {
        if self.frames > FRAMES_MAX as usize {
            Some(Which::Frames)
        } else if self.octets > OCTETS_MAX {
            Some(Which::Octets)
        } else if self.ticks > TICKS_MAX {
            Some(Which::Ticks)
        } else if self.installs > INSTALLS_MAX {
            Some(Which::Keys)
        } else if self.stations > STATIONS_MAX {
            Some(Which::Stations)
        } else {
            None
        }
    }
}

/// More installs at one station than it may make stop the group.
pub fn judge_installs(installs: u32) -> Result<(), Stop>
    ensures { Judges (if nat_lt most_installs installs then Some (Limit Keys) else None) result }
{
    if installs > INSTALLS_MAX {
        Err(Stop::Limit(Which::Keys))
    } else {
        Ok(())
    }
}
