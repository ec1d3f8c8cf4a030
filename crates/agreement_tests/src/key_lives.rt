//! Lives of a station's keys, step by step: what each of them changes.

use AssociationNumber::{An0, An1, An2, An3};
use Cause::{All, Flag, Timeout};
use ConfidentialityOffset::{Octets0, Octets30};
use Step::{Drops, Follows, Leads, Makes, Takes, Ticks};
use Told::{Began, Dropped, Installed, Retired, Untaken};
use aes_block::{Key, Secret};
use lan_base::{AssociationNumber, Mi};
use mkpdu_codec::{ConfidentialityOffset, Given, KeyUse, Uses, WrappedKey};
use sak_exchange::{Cause, Change, Changes, Due, KeyState, Offer, Rekey, Report, Seen, Why};
use std::alloc::Global;
use std::process::Abort;

/// A change, by the key's number.
#[derive(Clone, Copy, PartialEq, Eq)]
enum Told {
    Dropped(u32),
    Retired(u32),
    Began(u32, Cause),
    /// The number, the association number and the epoch.
    Installed(u32, AssociationNumber, u32),
    Untaken(u32, Why),
}

/// A live member, and the number of the key that it reports as its latest one; none has 0.
#[derive(Clone, Copy)]
struct Live(u8, u32);

/// A key that member 1 gives, and whether it lists the station and is elected.
#[derive(Clone, Copy)]
struct Gift {
    number: u32,
    an: AssociationNumber,
    offset: ConfidentialityOffset,
    listed: bool,
    elected: bool,
}

/// What happens in a life, and what changes by it.
#[derive(Clone, Copy)]
enum Step {
    /// Ticks at which a key server is elected, and what the last one changes.
    Ticks(u8, &'static [Told]),
    /// A tick at which none is.
    Drops(&'static [Told]),
    /// The station leads among live members.
    Leads(&'static [Live], &'static [Told]),
    /// It makes a key among them, if one is due; whether one is potential.
    Makes(&'static [Live], bool, &'static [Told]),
    /// Its server, member 1, says that it transmits under its key of this number.
    Follows(u32, &'static [Told]),
    /// A key is given.
    Takes(Gift, &'static [Told]),
}

/// A life of a station that installed so many keys before.
#[derive(Clone, Copy)]
struct Case {
    name: &'static str,
    own: u8,
    epochs: u32,
    steps: &'static [Step],
}

/// The member identifier of this octet twelve times.
fn mi(member: u8) -> Mi {
    Mi([member; 12])
}

/// The use of the key with this number by the first member, for sending and receiving.
fn use_of(number: u32) -> KeyUse {
    KeyUse {
        server: mi(1),
        number,
        an: An0,
        tx: true,
        rx: true,
        lowest: 1,
    }
}

/// What a live member reports.
fn report(live: &Live) -> Report {
    Report {
        mi: mi(live.0),
        uses: Some(Uses {
            latest: use_of(live.1),
            old: use_of(0),
        }),
    }
}

/// A change, told in short.
fn summary(change: &Change) -> Told {
    match change {
        Change::Dropped(held) => Dropped(held.key.id.number),
        Change::Retired(held) => Retired(held.key.id.number),
        Change::Began { key, cause } => Began(key.key.id.number, *cause),
        Change::Installed(held) => Installed(held.key.id.number, held.key.an, held.key.epoch),
        Change::Untaken { id, why } => Untaken(id.number, *why),
    }
}

/// Whether the changes are the expected ones, in their order.
fn is_told(changes: &Changes, expected: &[Told]) -> bool {
    let changes = changes.as_slice();
    changes.len() == expected.len()
        && changes
            .iter()
            .zip(expected)
            .all(|(change, told)| summary(change) == *told)
}

/// A key that RFC 3394 (4.1) wraps under the octets from 0 to 15.
const SAK: u128 = 0x00112233445566778899aabbccddeeff;

/// What RFC 3394 (4.1) gives for that key.
fn wrapped() -> [u8; 24] {
    let mut octets = [0; 24];
    octets[..8].copy_from_slice(&0x1fa68b0a8112b447_u64.to_be_bytes());
    octets[8..].copy_from_slice(&0xaef34bd8fb5a7b829d3e862371d2cfe5_u128.to_be_bytes());
    octets
}

/// An offer of that key by the first member.
fn offer(gift: &Gift) -> Offer {
    Offer {
        given: Given {
            an: gift.an,
            offset: gift.offset,
            number: gift.number,
            key: WrappedKey::Aes128(wrapped()),
        },
        server: mi(1),
        listed: gift.listed,
        elected: gift.elected,
    }
}

/// The key under which it is wrapped.
fn kek() -> Key {
    Key::k128(&0x000102030405060708090a0b0c0d0e0f_u128.to_be_bytes())
}

/// A key that the station can count is offered.
fn takes(rt: &impl Abort, keys: &mut KeyState, offer: &Offer, kek: &Key) -> Changes {
    assert!(rt; keys.epochs() < u32::MAX);
    keys.take(offer, kek).expect(rt, "memory")
}

/// A key is made, if one is due.
fn makes(
    rt: &impl Abort,
    alloc: Global,
    keys: &mut KeyState,
    live: &[Report],
    potential: bool,
) -> Changes {
    assert!(rt; keys.epochs() < u32::MAX);
    let due = Due {
        live,
        potential,
        seen: Seen {
            next: 1,
            latest: 1,
            old: 1,
        },
        rekey: Rekey {
            from: 100,
            as_old: false,
        },
        conf: true,
    };
    if keys.makes(&due) {
        return keys
            .make(&due, Secret::S128(SAK.to_be_bytes()))
            .expect(rt, "memory");
    }
    Changes::new(alloc)
}

/// What the live members report.
fn reports(rt: &impl Abort, alloc: Global, live: &[Live]) -> Vec<Report> {
    let mut reports = Vec::new(alloc);
    for member in live {
        reports.push(report(member)).expect(rt, "memory");
    }
    reports
}

/// A tick at which a key server is elected.
fn tick(rt: &impl Abort, keys: &mut KeyState) -> Changes {
    keys.tick();
    keys.retire().expect(rt, "memory")
}

/// So many ticks at which a key server is elected, and what the last one changes.
fn ticks(rt: &impl Abort, keys: &mut KeyState, count: u8) -> Changes {
    for _ in 1..count {
        assert!(rt; tick(rt, keys).is_empty());
    }
    tick(rt, keys)
}

/// A tick at which none is.
fn tick_alone(rt: &impl Abort, keys: &mut KeyState) -> Changes {
    keys.tick();
    keys.drop_all().expect(rt, "memory")
}

/// Live members report these keys as their latest ones.
fn leads(rt: &impl Abort, alloc: Global, keys: &mut KeyState, live: &[Live]) -> Changes {
    keys.lead(&reports(rt, alloc, live)).expect(rt, "memory")
}

/// The server transmits under its key of this number as its old one.
fn follows(rt: &impl Abort, keys: &mut KeyState, number: u32) -> Changes {
    let uses = Uses {
        latest: use_of(0),
        old: use_of(number),
    };
    keys.follow(&uses).expect(rt, "memory")
}

/// What a step changes.
fn play(rt: &impl Abort, alloc: Global, keys: &mut KeyState, step: &Step) -> Changes {
    match *step {
        Ticks(count, _) => ticks(rt, keys, count),
        Drops(_) => tick_alone(rt, keys),
        Leads(live, _) => leads(rt, alloc, keys, live),
        Makes(live, potential, _) => makes(rt, alloc, keys, &reports(rt, alloc, live), potential),
        Follows(number, _) => follows(rt, keys, number),
        Takes(gift, _) => takes(rt, keys, &offer(&gift), &kek()),
    }
}

/// What a step is to change.
fn expected(step: &Step) -> &'static [Told] {
    match step {
        Ticks(_, told)
        | Drops(told)
        | Leads(_, told)
        | Makes(_, _, told)
        | Follows(_, told)
        | Takes(_, told) => told,
    }
}

/// Plays the steps of a life; each tells what it says.
fn plays(rt: &impl Abort, alloc: Global, case: &Case) {
    let mut keys = KeyState::new(alloc, mi(case.own), case.epochs).expect(rt, "memory");
    for (at, step) in case.steps.iter().enumerate() {
        let changes = play(rt, alloc, &mut keys, step);
        assert!(rt;
            is_told(&changes, expected(step)),
            "{}: step {at}",
            case.name
        );
    }
}

/// A gift that the station takes.
const GIFT: Gift = Gift {
    number: 1,
    an: An0,
    offset: Octets0,
    listed: true,
    elected: true,
};

const SERVER: Case = Case {
    name: "a server makes keys and leads",
    own: 1,
    epochs: 7,
    steps: &[
        Drops(&[]),
        Ticks(1, &[]),
        Leads(&[Live(2, 0)], &[]),
        Makes(&[Live(2, 0)], true, &[Installed(1, An0, 8)]),
        Leads(&[Live(2, 0)], &[]),
        Makes(&[Live(2, 0)], false, &[]),
        Ticks(2, &[]),
        Leads(&[Live(2, 1)], &[Began(1, All)]),
        Makes(&[Live(2, 1), Live(3, 0)], true, &[]),
        Makes(&[Live(2, 1), Live(3, 0)], false, &[Installed(2, An1, 9)]),
        Leads(&[Live(2, 2), Live(3, 0)], &[]),
        Makes(&[Live(4, 0)], false, &[Dropped(2), Installed(3, An2, 10)]),
        Makes(&[Live(5, 0)], false, &[Dropped(3), Installed(4, An3, 11)]),
        Makes(&[Live(6, 0)], false, &[Dropped(4), Installed(5, An1, 12)]),
        Ticks(59, &[]),
        Leads(&[Live(6, 0)], &[]),
        Ticks(1, &[]),
        Leads(&[Live(6, 0)], &[Began(5, Timeout)]),
        Makes(&[Live(7, 0)], false, &[]),
        Ticks(29, &[]),
        Ticks(1, &[Retired(1)]),
        Makes(&[Live(7, 0)], false, &[Installed(6, An2, 13)]),
        Drops(&[Dropped(6), Dropped(5)]),
    ],
};

/// The second gift, and the next ones under the numbers 1 and 2.
const SECOND: Gift = Gift { number: 2, ..GIFT };

const THIRD: Gift = Gift {
    number: 3,
    an: An1,
    ..GIFT
};

const FOURTH: Gift = Gift {
    number: 4,
    an: An2,
    ..GIFT
};

const UNLISTED: Gift = Gift {
    listed: false,
    ..GIFT
};

const UNELECTED: Gift = Gift {
    elected: false,
    ..GIFT
};

const LEAVING: Gift = Gift {
    offset: Octets30,
    ..GIFT
};

const SEEN: Gift = Gift { an: An1, ..GIFT };

const MEMBER: Case = Case {
    name: "a member takes keys and follows",
    own: 2,
    epochs: 0,
    steps: &[
        Ticks(1, &[]),
        Takes(UNLISTED, &[Untaken(1, Why::NotListed)]),
        Takes(UNELECTED, &[Untaken(1, Why::NotServer)]),
        Takes(LEAVING, &[Untaken(1, Why::Offset)]),
        Takes(GIFT, &[Installed(1, An0, 1)]),
        Takes(SEEN, &[Untaken(1, Why::Seen { kept: 1 })]),
        Follows(2, &[]),
        Follows(1, &[Began(1, Flag)]),
        Follows(1, &[]),
        Takes(SECOND, &[Dropped(1), Installed(2, An0, 2)]),
        Follows(2, &[Began(2, Flag)]),
        Takes(THIRD, &[Installed(3, An1, 3)]),
        Follows(3, &[Began(3, Flag)]),
        Takes(FOURTH, &[Untaken(4, Why::Retiring)]),
        Ticks(30, &[Retired(2)]),
        Takes(FOURTH, &[Installed(4, An2, 4)]),
        Drops(&[Dropped(4), Dropped(3)]),
    ],
};

#[test]
fn keys_come_and_go(rt: HostRuntime) {
    for case in [&SERVER, &MEMBER] {
        plays(&rt, rt.alloc(), case);
    }
}
