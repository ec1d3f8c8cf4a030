//! What an event is in each group.

ghost use Rattle.std.specs.Prelude.{◌≡◌, List, Some, is_some};
ghost use Rattle.std.specs.Option.{option_copied};
ghost use Rattle.lan_base.specs.declared.frame.UserFrame.{UserFrame};
ghost use Rattle.lan_core.specs.Lives.{transmitting_at};
ghost use Rattle.cak_roll.specs.declared.event.GroupNumber.TheVariants.{Second};
ghost use Rattle.cak_roll.specs.declared.event.TwinEvent.TheVariants as twins;
ghost use Rattle.cak_roll.specs.Twin.{Pair, Twin as TwinRun, events_in, of_group};
ghost use Rattle.cak_roll.specs.Twin.{carrier, transmits, next_in, claimed_in, setting_of, run_of};
ghost use Rattle.cak_roll.specs.Twin.{sent_as};
ghost use Rattle.cak_roll.specs.Standing.{StandsFor};
ghost use Rattle.cak_roll.specs.inside.Parts.{events_of_part};

use super::Twin;
use crate::event::{GroupNumber, TwinEvent};
use crate::part::Part;
use crate::side::Side;
use lan_base::{Name, Sci};
use lan_core::Event;
use next_numbers::in_range;

impl Twin {
    /// What an event is in a group.
    pub(super) fn part(&self, group: GroupNumber, event: &TwinEvent) -> Part
        ensures { (pair : Pair) (users : List UserFrame) (t : TwinRun)
            → StandsFor pair users self.now t
            → events_of_part result ≡ events_in pair group t event.now }
    {
        match event {
            TwinEvent::Start {
                name,
                sci,
                priority,
            } => start(group, *name, *sci, *priority),
            TwinEvent::Adopt { station } => self.adoption(group, *station),
            TwinEvent::Leave { .. } => Part::Nothing,
            TwinEvent::Tick { station, group: of } => self.tick(group, *of, *station),
            TwinEvent::Deliver {
                group: of,
                frame,
                station,
            } => self.delivery(group, *of, *frame, *station),
            TwinEvent::Restart { station } => self.restart(group, *station),
            TwinEvent::Send { station, user } => self.sending(group, *station, *user),
        }
    }

    /// What an adoption is in a group.
    fn adoption(&self, group: GroupNumber, station: u8) -> Part
        ensures { (pair : Pair) (users : List UserFrame) (t : TwinRun)
            → StandsFor pair users self.now t
            → events_of_part result ≡ events_in pair group t (twins.Adopt station) }
    {
        match group {
            GroupNumber::First => Part::Nothing,
            GroupNumber::Second => self.second_start(station),
        }
    }

    /// What an adoption is in the second group: a start, as that in the first.
    fn second_start(&self, station: u8) -> Part
        ensures { (pair : Pair) (users : List UserFrame) (t : TwinRun)
            → StandsFor pair users self.now t
            → events_of_part result ≡ events_in pair Second t (twins.Adopt station) }
    {
        match self.members.station(station) {
            Some(started) => Part::One(Event::Start {
                name: started.name,
                sci: started.sci,
                priority: started.priority,
            }),
            None => Part::Nothing,
        }
    }

    /// What a tick in a group is in this one.
    fn tick(&self, group: GroupNumber, of: GroupNumber, station: u8) -> Part
        ensures { (pair : Pair) (users : List UserFrame) (t : TwinRun)
            → StandsFor pair users self.now t
            → events_of_part result ≡ events_in pair group t (twins.Tick station of) }
    {
        if of.is(group) {
            return Part::One(Event::Tick {
                station: self.members.place(group, station),
                next: self.next(group, station),
            });
        }
        Part::Nothing
    }

    /// What a delivery in a group is in this one.
    fn delivery(&self, group: GroupNumber, of: GroupNumber, frame: u32, station: u8) -> Part
        ensures { (pair : Pair) (users : List UserFrame) (t : TwinRun)
            → StandsFor pair users self.now t
            → events_of_part result ≡ events_in pair group t (twins.Deliver of frame station) }
    {
        if of.is(group) {
            return Part::One(Event::Deliver {
                frame,
                station: self.members.place(group, station),
            });
        }
        Part::Nothing
    }

    /// What a restart is in a group.
    fn restart(&self, group: GroupNumber, station: u8) -> Part
        ensures { (pair : Pair) (users : List UserFrame) (t : TwinRun)
            → StandsFor pair users self.now t
            → events_of_part result ≡ events_in pair group t (twins.Restart station) }
    {
        if self.takes_part(group, station) {
            return Part::One(Event::Restart {
                station: self.members.place(group, station),
            });
        }
        Part::Nothing
    }

    /// What a send is in a group: a claim, and its emission where it gets a packet number.
    fn sending(&self, group: GroupNumber, station: u8, user: u32) -> Part
        ensures { (pair : Pair) (users : List UserFrame) (t : TwinRun)
            → StandsFor pair users self.now t
            → events_of_part result ≡ events_in pair group t (twins.Send station user) }
    {
        if self.carrier(station).is(group) {
            let place = self.members.place(group, station);
            return sent(place, user, self.to_claim(group, station));
        }
        Part::Nothing
    }

    /// The group that carries what a station sends.
    fn carrier(&self, station: u8) -> GroupNumber
        ensures { (pair : Pair) (users : List UserFrame) (t : TwinRun)
            → StandsFor pair users self.now t → result ≡ carrier pair station t }
    {
        if self.transmits(GroupNumber::Second, station) {
            return GroupNumber::Second;
        }
        if self.takes_part(GroupNumber::First, station) {
            return GroupNumber::First;
        }
        GroupNumber::Second
    }

    /// Whether a key transmits at a station that takes part in a group.
    fn transmits(&self, group: GroupNumber, station: u8) -> bool
        ensures { (pair : Pair) (users : List UserFrame) (t : TwinRun)
            → StandsFor pair users self.now t → result ≡ transmits pair group station t }
    {
        if self.takes_part(group, station) {
            return self.has_key(group, self.members.place(group, station));
        }
        false
    }

    /// Whether a key transmits at a place of a group.
    fn has_key(&self, group: GroupNumber, place: u8) -> bool
        ensures { (pair : Pair) (users : List UserFrame) (t : TwinRun)
            → StandsFor pair users self.now t
            → result ≡ is_some (transmitting_at (setting_of pair group) place (run_of group t)) }
    {
        match self.side(group) {
            Some(side) => side.transmits(place),
            None => false,
        }
    }

    /// The next packet number under the key that transmits at a station of a group, 0 without one.
    fn next(&self, group: GroupNumber, station: u8) -> u64
        ensures { (pair : Pair) (users : List UserFrame) (t : TwinRun)
            → StandsFor pair users self.now t → result ≡ next_in pair group station t }
    {
        match self.side(group) {
            Some(side) => side.next(self.members.place(group, station)),
            None => 0,
        }
    }

    /// The packet number that a station of a group claims, 0 where it gets none.
    fn to_claim(&self, group: GroupNumber, station: u8) -> u32
        ensures { (pair : Pair) (users : List UserFrame) (t : TwinRun)
            → StandsFor pair users self.now t → result ≡ claimed_in pair group station t }
    {
        in_range(self.next(group, station))
    }

    /// A group, if it is there.
    fn side(&self, group: GroupNumber) -> Option<&Side>
        ensures { option_copied result ≡ of_group group (Some self.now.first) self.now.second }
    {
        match group {
            GroupNumber::First => Some(&self.first),
            GroupNumber::Second => self.second.as_ref(),
        }
    }
}

/// What a start is in a group.
fn start(group: GroupNumber, name: Name, sci: Sci, priority: u8) -> Part
    ensures { (pair : Pair) (t : TwinRun)
        → events_of_part result ≡ events_in pair group t (twins.Start name sci priority) }
{
    match group {
        GroupNumber::First => Part::One(Event::Start {
            name,
            sci,
            priority,
        }),
        GroupNumber::Second => Part::Nothing,
    }
}

/// A claim of this packet number, and its emission unless the number is 0.
fn sent(station: u8, user: u32, pn: u32) -> Part
    ensures { events_of_part result ≡ sent_as station user pn }
{
    if pn == 0 {
        Part::One(Event::Claim { station, user, pn })
    } else {
        Part::Sent { station, user, pn }
    }
}
