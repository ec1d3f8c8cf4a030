//! The groups of a transcript, and the places of their stations.

ghost use Rattle.std.specs.Prelude.{◌≡◌, ◌<◌};
ghost use Rattle.lan_core.specs.Run.{place};
ghost use Rattle.transcript.specs.Naming.{most_named};
ghost use Rattle.transcript_reader.specs.Forms.{moved, placed, station_of};

use lan_core::Fact;

/// How many places further the stations of the second group are: as many as a transcript names.
pub const FURTHER: u8 = 16;

/// One of the groups.
#[derive(Clone, Copy, Debug, PartialEq, Eq)]
pub enum Group {
    First,
    Second,
}

impl Group {
    /// A fact of the group, whose station has its place there.
    pub fn place(self, fact: Fact) -> Fact
        requires { place fact < most_named }
        ensures { result ≡ placed self fact }
    {
        let mut fact = fact;
        if self == Group::Second {
            go_on(&mut fact);
        }
        fact
    }
}

/// The station of a place is that of the second group.
fn go_on(fact: &mut Fact)
    requires { place fact.old < most_named }
    ensures { fact.new ≡ moved fact.old }
{
    let place = fact.place();
    fact.move_to(place + FURTHER);
}

/// The place by which a station is named, whichever group its place is of.
pub fn station_of(place: u8) -> u8
    ensures { result ≡ station_of place }
{
    place % FURTHER
}
