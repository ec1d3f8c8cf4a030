//! What the receive slots of a station do as its keys change.

ghost use Rattle.std.specs.Prelude.{◌≡◌, ◌+◌, ◌<◌, ◌^◌, ℕ, List};
ghost use Rattle.lan_base.specs.declared.address.Sci.{Sci};
ghost use Rattle.rx_slots.specs.Histories.{Receiving};
ghost use Rattle.rx_slots.specs.Standing.{StandsFor as SlotsStandFor};
ghost use Rattle.lan_core.specs.inside.Following.{count_installed, followed, lowest_held, one_installed, slot_of};
ghost use Rattle.lan_core.specs.Ledgers.{with_one};

use rx_slots::RxSlots;
use sak_exchange::{Change, HeldKey};

/// The receive slots follow the changes of a station's keys.
pub fn follow(slots: &mut RxSlots, changes: &[Change])
    ensures { (own : Sci) (window : ℕ) (h : List Receiving) → SlotsStandFor own window slots.old h →
        SlotsStandFor own window slots.new (followed changes.now h) }
{
    for change in changes {
        follow_one(slots, change);
    }
}

/// They follow one change.
fn follow_one(slots: &mut RxSlots, change: &Change)
    ensures { (own : Sci) (window : ℕ) (h : List Receiving) → SlotsStandFor own window slots.old h →
        SlotsStandFor own window slots.new (with_one (slot_of change.now) h) }
{
    match change {
        Change::Dropped(held) => slots.remove(held.key.an),
        Change::Retired(held) => slots.remove(held.key.an),
        Change::Installed(held) => slots.install(held.key.an, &held.key.sak),
        Change::Began { .. } | Change::Untaken { .. } => {}
    }
}

/// A count of installs, after changes of a station's keys.
pub fn installs_after(installs: u32, changes: &[Change]) -> u32
    requires { installs + count_installed changes.now < 2 ^ 32 }
    ensures { result ≡ installs + count_installed changes.now }
{
    let mut count = installs;
    for change in changes {
        count += installs_one(change);
    }
    count
}

/// How many keys a change installs.
fn installs_one(change: &Change) -> u32
    ensures { result ≡ one_installed change.now }
{
    match change {
        Change::Installed(_) => 1,
        _ => 0,
    }
}

/// The lowest acceptable packet number under a held key, 1 where there is none.
pub fn lowest_under(slots: &RxSlots, held: Option<HeldKey>) -> u32
    ensures { (own : Sci) (window : ℕ) (h : List Receiving) → SlotsStandFor own window slots.now h →
        result ≡ lowest_held own window h held }
{
    match held {
        Some(held) => slots.lowest(held.key.an),
        None => 1,
    }
}
