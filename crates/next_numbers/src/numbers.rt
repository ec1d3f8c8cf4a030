//! The packet numbers that stations show and claim.

ghost use Rattle.std.specs.Prelude.{◌≡◌, ◌==◌, ◌&&◌, ◌+◌, ◌<◌, ℕ, List};
ghost use Rattle.std.specs.Prelude.{[], ◌∷◌, get_or, if◌then◌else◌, max};
ghost use Rattle.std.specs.Prelude.{OnOk};
ghost use Rattle.lan_base.specs.declared.frame.UserFrame.{UserFrame};
ghost use Rattle.lan_core.specs.declared.event.Event.{Event};
ghost use Rattle.lan_core.specs.declared.settings.Settings.{Settings};
ghost use Rattle.lan_core.specs.Run.{Run, happened};
ghost use Rattle.lan_core.specs.Claims.{after_claim};
ghost use Rattle.lan_core.specs.Standing.{StandsFor};
ghost use Rattle.next_numbers.specs.Numbers.{shown_next, claimed_number, in_range};
ghost use Rattle.next_numbers.specs.Numbers.{counted_next, TellNext, is_tick, ShowsNext};
ghost use Rattle.next_numbers.specs.inside.Counters.{raised_at};

use lan_core::{Event, Fact, Lan};
use std::alloc::{AllocError, Global};
use std::marker::Model;

/// The next packet number of each station under each epoch, as far as it is above 1. Contracts see
/// the tables by station, and in each the numbers by epoch.
#[derive(Drop)]
pub struct Numbers {
    stations: Vec<Counter>,
}

impl Model for Numbers {
    ghost use Rattle.std.specs.Prelude.{ℕ, List};

    ghost Value = { List (List ℕ) };

    ghost view = { λ n. n.stations.items };
}

impl Numbers {
    /// No number was claimed.
    pub fn new(alloc: Global) -> Self
        ensures { result ≡ [] }
    {
        Numbers {
            stations: Vec::new(alloc),
        }
    }

    /// The number that a tick of a station shows: the next one under the key that transmits, or 0.
    pub fn shown(&self, lan: &Lan, station: u8) -> u64
        ensures { (settings : Settings) (users : List UserFrame) (r : Run)
            → StandsFor settings users lan.now r → TellNext settings r self.now
            → result ≡ shown_next settings station r }
    {
        match lan.transmitting(station) {
            None => 0,
            Some((_, epoch)) => self.next(station, epoch),
        }
    }

    /// The number that a station claims next, 0 where it can claim none.
    pub fn to_claim(&self, lan: &Lan, station: u8) -> u32
        ensures { (settings : Settings) (users : List UserFrame) (r : Run)
            → StandsFor settings users lan.now r → TellNext settings r self.now
            → result ≡ claimed_number settings station r }
    {
        in_range(self.shown(lan, station))
    }

    /// The numbers follow an event and its facts.
    pub fn follow(&mut self, alloc: Global, event: &Event, facts: &[Fact]) -> Result<(), AllocError>
        ensures { (settings : Settings) (r : Run) → TellNext settings r self.old
            → ShowsNext settings r event.now
            → OnOk result (TellNext settings (happened event.now facts.now ∷ r) self.new) }
    {
        if is_tick(event) {
            return Ok(());
        }
        self.follow_claim(alloc, facts)
    }

    /// A number that facts claimed is passed.
    fn follow_claim(&mut self, alloc: Global, facts: &[Fact]) -> Result<(), AllocError>
        ensures { OnOk result ((s e : ℕ) → counted_next self.new s e
            ≡ max (after_claim s e facts.now) (counted_next self.old s e)) }
    {
        match facts {
            [
                Fact::Claimed {
                    station,
                    epoch,
                    pn,
                    ..
                },
                ..
            ] => self.raise(alloc, *station, *epoch, u64::from(*pn) + 1),
            _ => Ok(()),
        }
    }

    /// The next number of a station under an epoch.
    fn next(&self, station: u8, epoch: u32) -> u64
        ensures { result ≡ counted_next self.now station epoch }
    {
        match self.stations.get(usize::from(station)) {
            Some(counter) => counter.next(epoch),
            None => 1,
        }
    }

    /// The next number of a station under an epoch is this one at least.
    fn raise(&mut self, alloc: Global, station: u8, epoch: u32, next: u64) -> Result<(), AllocError>
        ensures { OnOk result ((s e : ℕ) → counted_next self.new s e
            ≡ (if (station == s) && (epoch == e) then max next (counted_next self.old s e)
            else counted_next self.old s e)) }
    {
        let place = usize::from(station);
        while self.stations.len() <= place {
            self.stations.push(Counter::new(alloc))?;
        }
        self.stations[place].raise(epoch, next)
    }
}

/// The next packet numbers of a station by epoch. Contracts see the list.
#[derive(Drop)]
struct Counter {
    by_epoch: Vec<u64>,
}

impl Model for Counter {
    ghost use Rattle.std.specs.Prelude.{ℕ, List};

    ghost Value = { List ℕ };

    ghost view = { λ c. c.by_epoch.items };
}

impl Counter {
    /// No number was claimed.
    fn new(alloc: Global) -> Self
        ensures { result ≡ [] }
    {
        Counter {
            by_epoch: Vec::new(alloc),
        }
    }

    /// The next number under an epoch.
    fn next(&self, epoch: u32) -> u64
        ensures { result ≡ get_or self.now epoch 1 }
    {
        match self.by_epoch.get(epoch as usize) {
            Some(next) => *next,
            None => 1,
        }
    }

    /// The next number under an epoch is this one at least.
    fn raise(&mut self, epoch: u32, next: u64) -> Result<(), AllocError>
        ensures { OnOk result ((e : ℕ) → get_or self.new e 1 ≡ raised_at self.old epoch next e) }
    {
        let place = epoch as usize;
        while self.by_epoch.len() <= place {
            self.by_epoch.push(1)?;
        }
        if self.by_epoch[place] < next {
            self.by_epoch[place] = next;
        }
        Ok(())
    }
}

/// Whether an event is a tick.
fn is_tick(event: &Event) -> bool
    ensures { result ≡ is_tick event.now }
{
    matches!(event, Event::Tick { .. })
}

/// A packet number, and 0 for what lies behind the last one.
pub fn in_range(next: u64) -> u32
    ensures { result ≡ in_range next }
{
    u32::try_from(next).unwrap_or(0)
}
