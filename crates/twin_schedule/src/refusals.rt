//! Why a line is refused.

ghost use Rattle.std.specs.Prelude.{◌≡◌, ◌==◌, ◌||◌, nat_eq, map, IfNone, true};
ghost use Rattle.std.specs.List.{list_any};
ghost use Rattle.std.specs.Cmp.Lexicographic.{pointwise};
ghost use Rattle.trace_acts.specs.Names.{is_in};
ghost use Rattle.trace_acts.specs.Kinds.{or_else, where_, unknown};
ghost use Rattle.trace_acts.specs.declared.halt.Kind.TheVariants as kinds;
ghost use Rattle.twin_schedule.specs.World.{World, has_adopted};
ghost use Rattle.twin_schedule.specs.Kinds.{may_be_second, may_stand, refusal, wrong, wrong_plain};
ghost use Rattle.twin_schedule.specs.inside.Choosing.{is_later};
ghost use Rattle.twin_schedule.specs.Ends.{IsReached};
ghost use Rattle.twin_schedule.specs.Stages.{StandsFor};

use crate::stage::{Stage, group_of};
use lan_base::{Name, Octets, Sci};
use trace_acts::{Keyed, Kind, is_elsewhere, is_named, unknown};
use trace_text::Line;
use trace_text::twin::RollLine;

impl Stage {
    /// Why a line is refused.
    pub fn refusal(&self, line: &RollLine) -> Option<Kind>
        ensures first { (w : World) → IsReached StandsFor w self.now → result ≡ refusal line.now w }
        ensures later { IfNone result (is_later line.now ≡ true) }
    {
        if self.may_stand(line) {
            self.wrong(line)
        } else {
            Some(Kind::Order)
        }
    }

    /// Whether a line may stand here.
    fn may_stand(&self, line: &RollLine) -> bool
        ensures stands { (w : World) → StandsFor w self.now → result ≡ may_stand line.now w }
        ensures later { result ≡ true → is_later line.now ≡ true }
    {
        match line {
            RollLine::Plain(line) => !is_elsewhere(line),
            RollLine::Group2 { ckn, .. } => may_be_second(ckn, &self.chosen.group, &self.keyed),
            RollLine::Adopt { .. } => self.keyed.is_some(),
            RollLine::Leave { group, .. } => is_group(*group),
        }
    }

    /// What is wrong with the words of a line, from the left.
    fn wrong(&self, line: &RollLine) -> Option<Kind>
        ensures { (w : World) → IsReached StandsFor w self.now → result ≡ wrong line.now w }
    {
        match line {
            RollLine::Plain(line) => self.wrong_plain(line),
            RollLine::Group2 { .. } => None,
            RollLine::Adopt { name } => self
                .unknown(name)
                .or(order_where(self.has_adopted(self.place(name)))),
            RollLine::Leave { group, name } => self.unknown(name).or(order_where(
                !self.twin.takes_part(group_of(*group), self.place(name)),
            )),
        }
    }

    /// What is wrong with the words of a line of one group.
    fn wrong_plain(&self, line: &Line) -> Option<Kind>
        ensures { (w : World) → IsReached StandsFor w self.now → result ≡ wrong_plain line.now w }
    {
        match line {
            Line::Station { name, sci, .. } => self.taken(name, sci),
            Line::TickOne { name, .. } | Line::Restart { name } => self.unknown(name),
            Line::Cut { from, to } | Line::Mend { from, to } => {
                self.unknown(from).or(self.unknown(to))
            }
            Line::Send { name, .. } => self
                .unknown(name)
                .or(order_where(self.is_out(self.place(name)))),
            _ => None,
        }
    }

    /// Whether a station adopted the second group.
    fn has_adopted(&self, station: u8) -> bool
        ensures { (w : World) → StandsFor w self.now → result ≡ has_adopted station w.run }
    {
        contains(self.twin.adopters(), station)
    }

    /// Whether the name or the SCI of a station that is to start is taken.
    fn taken(&self, name: &Name, sci: &Sci) -> Option<Kind>
        ensures { result
            ≡ or_else (where_ (is_in name.now self.now.first.names.items) kinds.NameTaken)
            (where_ (is_in sci.now.0 (map (λ sci. sci.0) self.now.scis.items)) kinds.SciTaken) }
    {
        if is_named(&self.first.names, name) {
            Some(Kind::NameTaken)
        } else if self.has_sci(sci) {
            Some(Kind::SciTaken)
        } else {
            None
        }
    }

    /// Whether no station has this name.
    fn unknown(&self, name: &Name) -> Option<Kind>
        ensures { result ≡ unknown name.now self.now.first.names.items }
    {
        unknown(&self.first.names, name)
    }

    /// Whether a station has this SCI.
    fn has_sci(&self, sci: &Sci) -> bool
        ensures { result
            ≡ list_any (λ other. pointwise nat_eq sci.now.0 other.0) self.now.scis.items }
    {
        self.scis.iter().any(|other| sci.0 == other.0)
    }
}

/// Whether a station is among others.
fn contains(stations: &[u8], station: u8) -> bool
    ensures { result ≡ list_any (λ u. u == station) stations.now }
{
    stations.iter().any(|other| *other == station)
}

/// The line is not allowed where the test holds.
pub fn order_where(test: bool) -> Option<Kind>
    ensures { result ≡ where_ test kinds.Order }
{
    if test { Some(Kind::Order) } else { None }
}

/// Whether a second group of this name may come: behind the first one, once, and not of its name.
pub fn may_be_second(ckn: &Octets, first: &Option<Keyed>, second: &Option<Keyed>) -> bool
    ensures { result ≡ may_be_second ckn.now first.now second.now }
{
    match (first, second) {
        (Some(first), None) => ckn.as_slice() != first.ckn.as_slice(),
        _ => false,
    }
}

/// Whether a number is that of a group.
pub fn is_group(number: u32) -> bool
    ensures { result ≡ ((number == 1) || (number == 2)) }
{
    number == 1 || number == 2
}
