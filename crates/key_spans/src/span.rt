//! A key that a station holds, from its install to its end.

ghost use Rattle.std.specs.Prelude.{◌≡◌, ◌==◌, ◌&&◌, if◌then◌else◌, true, Some, None};
ghost use Rattle.lan_base.specs.AssociationNumbers.{same_an};
ghost use Rattle.lan_core.specs.Run.{place};
ghost use Rattle.lan_core.specs.declared.fact.Fact.{Fact};
ghost use Rattle.key_spans.specs.Leaving.{parted};
ghost use Rattle.key_spans.specs.Spans.{relieved_at, touched, turn_by};

use lan_base::{AssociationNumber, KeyId};
use lan_core::Fact;
use tick_columns::Timed;

/// Why a key is held no more.
#[derive(Clone, Copy)]
pub enum Why {
    /// Its station installed a key under its number.
    Replaced,
    /// It was the old key, and its time was over.
    Retired,
    /// Its station dropped it: no server was elected, or there was no room for it beside others.
    Dropped,
    /// Its station began another life.
    Restarted,
    /// Its station left the group.
    Left,
}

/// When a key was held no more, in ticks, and why.
#[derive(Clone, Copy)]
pub struct End {
    pub at: u32,
    pub why: Why,
}

/// A key that a station holds under an association number. Times are ticks.
#[derive(Clone, Copy)]
pub struct Span {
    /// The place of the station.
    pub station: u8,
    pub number: AssociationNumber,
    pub id: KeyId,
    pub epoch: u32,
    /// When it was installed.
    pub installed: u32,
    /// When it began to transmit.
    pub began: Option<u32>,
    /// When another key of its station began to transmit in its place.
    pub relieved: Option<u32>,
    /// When it was held no more; none where it is still held.
    pub ended: Option<End>,
}

/// What a fact is to a key that is held.
#[derive(Clone, Copy)]
pub enum Turn {
    /// It is held no more.
    Ends(Why),
    /// It begins to transmit.
    Begins,
    /// Another key of its station begins to transmit.
    Relieves,
}

impl Timed for Span {
    ghost time = { λ span. span.installed };

    fn at(&self) -> u32 {
        self.installed
    }
}

impl Span {
    /// The key where its station left its group at this tick, if it did: one that has ended stays as it is.
    pub fn parted(self, left: Option<u32>) -> Span
        ensures { result ≡ parted left self }
    {
        match left {
            Some(at) if self.ended.is_none() => Span {
                ended: Some(End {
                    at: at.max(self.installed),
                    why: Why::Left,
                }),
                ..self
            },
            _ => self,
        }
    }

    /// The key after a fact that comes at this time: one that has ended stays as it is.
    pub(crate) fn touched(self, at: u32, turn: Option<Turn>) -> Span
        ensures { result ≡ touched at turn self }
    {
        if self.ended.is_some() {
            return self;
        }
        match turn {
            None => self,
            Some(Turn::Ends(why)) => Span {
                ended: Some(End { at, why }),
                ..self
            },
            Some(Turn::Begins) => Span {
                began: self.began.or(Some(at)),
                ..self
            },
            Some(Turn::Relieves) => self.relieved_at(at),
        }
    }

    /// The key where another one begins: it transmits no more, if it did.
    fn relieved_at(self, at: u32) -> Span
        ensures { result ≡ relieved_at at self }
    {
        if self.began.is_none() {
            return self;
        }
        Span {
            relieved: self.relieved.or(Some(at)),
            ..self
        }
    }
}

/// What a fact is to a key that this station holds under this number, if it is something.
pub(crate) fn turn_by(station: u8, number: AssociationNumber, fact: &Fact) -> Option<Turn>
    ensures { result ≡ turn_by station number fact.now }
{
    match fact {
        Fact::Installed { an, .. } => on_own(fact, station, *an, number, Turn::Ends(Why::Replaced)),
        Fact::Retired { an, .. } => on_own(fact, station, *an, number, Turn::Ends(Why::Retired)),
        Fact::Dropped { an, .. } => on_own(fact, station, *an, number, Turn::Ends(Why::Dropped)),
        Fact::Life { station: at, .. } if *at == station => Some(Turn::Ends(Why::Restarted)),
        Fact::Began {
            station: at,
            an,
            ..
        } if *at == station => {
            if an.number() == number.number() {
                Some(Turn::Begins)
            } else {
                Some(Turn::Relieves)
            }
        }
        _ => None,
    }
}

/// A turn of the key under one number where a fact of a station speaks of it.
fn on_own(
    fact: &Fact,
    station: u8,
    an: AssociationNumber,
    number: AssociationNumber,
    turn: Turn,
) -> Option<Turn>
    ensures { result ≡ (if (place fact.now == station) && same_an an number then Some turn else None) }
{
    if fact.place() == station && an.number() == number.number() {
        Some(turn)
    } else {
        None
    }
}
