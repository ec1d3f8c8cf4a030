//! Which deed a line is outside a race, or why it is refused.

ghost use Rattle.std.specs.Prelude.{◌≡◌, ◌≤◌, length, map, false, IfOk, IfSome, Some};
ghost use Rattle.lan_core.specs.Standing.{scis_in};
ghost use Rattle.trace_text.specs.Writing.{IsInForm};
ghost use Rattle.trace_acts.specs.Names.{is_in};
ghost use Rattle.trace_acts.specs.Kinds.{or_else, where_};
ghost use Rattle.trace_acts.specs.declared.halt.Kind.TheVariants as kinds;
ghost use Rattle.trace_acts.specs.Places.{is_race};
ghost use Rattle.lan_schedule.specs.World.{World};
ghost use Rattle.lan_schedule.specs.Deeds.{IsInRange, deed_in};
ghost use Rattle.lan_schedule.specs.Kinds.{no_frame, no_station, is_number, taken};
ghost use Rattle.lan_schedule.specs.Kinds.{wrong_frame, wrong_station, wrong_word};
ghost use Rattle.lan_schedule.specs.Ends.{IsReached};
ghost use Rattle.lan_schedule.specs.inside.Phased.{Resolves};
ghost use Rattle.lan_schedule.specs.Stages.{StandsFor};

use crate::deed::{Deed, Named};
use crate::stage::Stage;
use lan_base::{Name, Sci};
use trace_acts::{Kind, is_named};
use trace_text::Line;

impl Stage {
    /// The deed of a line outside a race, which begins none, or why it is refused.
    pub fn resolve(&self, line: Line) -> Result<Deed, Kind>
        requires form { IsInForm line }
        requires apart { is_race line ≡ false }
        ensures resolves { (w : World) → IsReached StandsFor w self.now → Resolves line w result }
        ensures ranges { IfOk result IsInRange }
    {
        let Some(deed) = self.deed(line) else {
            return Err(Kind::Order);
        };
        match self.wrong_word(&deed) {
            None => Ok(deed),
            Some(kind) => Err(kind),
        }
    }

    /// The deed of a line, if it has one.
    pub fn deed(&self, line: Line) -> Option<Deed>
        requires form { IsInForm line }
        ensures is { length self.now.lan.names ≤ 255
            → result ≡ deed_in line self.now.lan.names }
        ensures ranges { IfSome result IsInRange }
    {
        Deed::of(line, self.lan.names())
    }

    // ---- what is wrong with a deed

    /// What is wrong with a deed outside a race, by the words of its line from the left.
    fn wrong_word(&self, deed: &Deed) -> Option<Kind>
        ensures { result
            ≡ wrong_word (Some deed.now) self.now.lan.names (map (λ sci. sci.0) (scis_in self.now.lan))
            (length self.now.frames.frames) }
    {
        self.wrong_frame(deed)
            .or(self.taken(deed).or(self.wrong_station(deed)))
    }

    /// What is wrong with its frames.
    pub fn wrong_frame(&self, deed: &Deed) -> Option<Kind>
        ensures { result ≡ wrong_frame deed.now (length self.now.frames.frames) }
    {
        match deed.frames() {
            Named::Nothing => None,
            Named::One(frame) => self.no_frame(frame),
            Named::Two(first, last) => self.no_frame(first).or(self.no_frame(last)),
        }
    }

    /// Whether a station that is to start has a name or an SCI that another has.
    fn taken(&self, deed: &Deed) -> Option<Kind>
        ensures { result
            ≡ taken deed.now self.now.lan.names (map (λ sci. sci.0) (scis_in self.now.lan)) }
    {
        let (name, sci) = deed.started()?;
        self.is_taken(&name, &sci)
    }

    /// What is wrong with its stations.
    pub fn wrong_station(&self, deed: &Deed) -> Option<Kind>
        ensures { result ≡ wrong_station deed.now self.now.lan.names }
    {
        match deed.stations() {
            Named::Nothing => None,
            Named::One(station) => self.no_station(station),
            Named::Two(from, to) => self.no_station(from).or(self.no_station(to)),
        }
    }

    /// Whether the name or the SCI of a station that is to start is taken.
    fn is_taken(&self, name: &Name, sci: &Sci) -> Option<Kind>
        ensures { result ≡ or_else (where_ (is_in name.now self.now.lan.names) kinds.NameTaken)
            (where_ (is_in sci.now.0 (map (λ sci. sci.0) (scis_in self.now.lan))) kinds.SciTaken) }
    {
        if is_named(self.lan.names(), name) {
            Some(Kind::NameTaken)
        } else if self.lan.has_sci(sci) {
            Some(Kind::SciTaken)
        } else {
            None
        }
    }

    /// Whether no station stands at this place.
    pub fn no_station(&self, station: u8) -> Option<Kind>
        ensures { result ≡ no_station station self.now.lan.names }
    {
        if usize::from(station) < self.lan.names().len() {
            None
        } else {
            Some(Kind::NameUnknown)
        }
    }

    /// Whether the air has no frame of this number.
    fn no_frame(&self, number: u32) -> Option<Kind>
        ensures { result ≡ no_frame number (length self.now.frames.frames) }
    {
        if self.has_frame(number) {
            None
        } else {
            Some(Kind::FrameUnknown)
        }
    }

    // ---- frames

    /// Whether the air has a frame of this number.
    fn has_frame(&self, number: u32) -> bool
        ensures { result ≡ is_number number (length self.now.frames.frames) }
    {
        1 <= number && number as usize <= self.frames.len()
    }
}
