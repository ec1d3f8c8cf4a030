//! What is told of keys that right MKPDUs distribute and show.

ghost use Rattle.std.specs.Prelude.{◌≡◌, ◌<◌, ◌≤◌, ◌++◌, List, ℕ, length, IfOk, OnOk, Ok};
ghost use Rattle.known_keys.specs.History.{Entry, keys};
ghost use Rattle.known_keys.specs.Standing.{StandsFor};
ghost use Rattle.capture_audit.specs.Before.{shown_entries, why_of};
ghost use Rattle.known_keys.specs.Numbered.{most_keys};
ghost use Rattle.capture_audit.specs.inside.Keeping.{HandsGift, HandsNone, HandsOver};

use aes_block::Secret;
use audit_report::Handed;
use known_keys::{KeyError, KnownKeys, NoSak};
use packet_verdicts::{Gift, Shown};
use std::alloc::AllocError;

/// What is told of the key that a packet of a group distributes, if it does. A key too many leaves all
/// as it was.
pub fn hand(
    known: &mut KnownKeys,
    packet: u32,
    nanos: u64,
    group: u32,
    gift: Option<Gift>,
) -> Result<Option<Handed>, KeyError>
    requires { known.old.firsts.last < packet }
    ensures hands { (told : List Entry) → StandsFor told known.old
        → length (keys told) ≤ most_keys
        → HandsOver told packet nanos group gift known.old known.new result }
    ensures last { OnOk result (known.new.firsts.last ≤ packet) }
{
    match gift {
        Some(gift) => Ok(Some(hand_gift(known, packet, nanos, group, &gift)?)),
        None => Ok(None),
    }
}

/// What is told of a gift.
fn hand_gift(
    known: &mut KnownKeys,
    packet: u32,
    nanos: u64,
    group: u32,
    gift: &Gift,
) -> Result<Handed, KeyError>
    requires { known.old.firsts.last < packet }
    ensures hands { (told : List Entry) → StandsFor told known.old
        → length (keys told) ≤ most_keys
        → HandsGift told packet nanos group gift.now gift.now.sak known.old known.new result }
    ensures last { OnOk result (known.new.firsts.last ≤ packet) }
{
    match gift.sak {
        Ok(sak) => hand_key(known, packet, nanos, group, gift, sak),
        Err(why) => Ok(hand_none(known, nanos, group, gift, why)?),
    }
}

/// What is told of a gift that is a key.
fn hand_key(
    known: &mut KnownKeys,
    packet: u32,
    nanos: u64,
    group: u32,
    gift: &Gift,
    sak: Secret,
) -> Result<Handed, KeyError>
    requires { known.old.firsts.last < packet }
    ensures hands { (told : List Entry) → StandsFor told known.old
        → HandsGift told packet nanos group gift.now (Ok sak) known.old known.new result }
    ensures last { OnOk result (known.new.firsts.last ≤ packet) }
{
    let (id, an, offset) = (gift.id, gift.an, gift.offset);
    let told = known.give(packet, nanos, group, id, an, offset, sak)?;
    Ok(Handed::Key {
        id,
        an,
        offset,
        sak,
        told,
    })
}

/// What is told of a gift that is none.
fn hand_none(
    known: &mut KnownKeys,
    nanos: u64,
    group: u32,
    gift: &Gift,
    why: packet_verdicts::NoSak,
) -> Result<Handed, AllocError>
    ensures hands { (told : List Entry) (packet : ℕ) → StandsFor told known.old
        → IfOk result (λ it. HandsNone told packet nanos group gift.now why known.new it) }
    ensures last { OnOk result (known.new.firsts.last ≡ known.old.firsts.last) }
{
    let id = gift.id;
    let why = why_of(why);
    let is_new = known.give_none(nanos, group, id, gift.an, why)?;
    Ok(Handed::Untaken { id, why, is_new })
}

/// Why no key is given, in the words of known keys.
fn why_of(why: packet_verdicts::NoSak) -> NoSak
    ensures { result ≡ why_of why }
{
    match why {
        packet_verdicts::NoSak::OtherSuite => NoSak::OtherSuite,
        packet_verdicts::NoSak::WrongWrap => NoSak::WrongWrap,
    }
}

/// A packet of a group shows a key, if it does.
pub fn show(
    known: &mut KnownKeys,
    nanos: u64,
    group: u32,
    shown: Option<Shown>,
) -> Result<(), AllocError>
    ensures shows { (told : List Entry) (packet : ℕ) → StandsFor told known.old
        → OnOk result (StandsFor (shown_entries packet nanos group shown ++ told) known.new) }
    ensures last { OnOk result (known.new.firsts.last ≡ known.old.firsts.last) }
{
    match shown {
        Some(Shown { id, an, .. }) => known.show(nanos, group, id, an),
        None => Ok(()),
    }
}
