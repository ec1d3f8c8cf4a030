//! Stations A and B of a group, each told by the frames that it hears and sends and by what
//! changes. What A sends is what B hears, and the other way round.

use crate::station_frames::*;
use AssociationNumber::{An0, An2, An3};
use DropReason::{Check, CkName, Refused, Unspelled};
use PeerRefusal::{Echo, OldNumber, PeersFull};
use Refusal::{Agility, NotMka, Repeated, Shape, Short};
use Step::{Drops, Fills, Hears, Holds, Restarts, Spends, Ticks};
use Suite::{GcmAes128, GcmAes256};
use Told::{Began, Dropped, Elected, Installed, Lost, Untaken};
use Verdict::{Unvouched, Vouched};
use Who::{A, B};
use aes_block::Secret;
use aes_cmac::cmac;
use lan_base::{AssociationNumber, Blocks, CountDraws, Draws, KeyId, ListDraws, Mi, Sci, Suite};
use mka_kdf::Group;
use mka_station::{Config, DropReason, Reaction, Station, TickError, Verdict};
use mkpdu_codec::Refusal;
use peer_lists::PeerRefusal;
use sak_exchange::{Cause, Change, HeldKey, Key, Rekey, Seen, Why};
use std::alloc::Global;
use std::process::Abort;

/// A station, with the identifier 1 or 2.
#[derive(Clone, Copy)]
enum Who {
    A,
    B,
}

/// What changes in an event: the server, by the last octet of its identifier, and keys, by their
/// number.
#[derive(Clone, Copy, PartialEq, Eq)]
enum Told {
    Elected(u8),
    Lost,
    Dropped(u32),
    Retired(u32),
    Began(u32, Cause),
    /// The number, the association number and the epoch.
    Installed(u32, AssociationNumber, u32),
    Untaken(u32, Why),
}

/// An event at a station, and what it then does.
#[derive(Clone, Copy)]
enum Step {
    /// A tick that is shown this next number; what changes, and the frame that is sent, or none.
    Ticks(u64, &'static [Told], &'static str),
    /// A tick that is refused, since it makes a key and one draw is left.
    Spends,
    /// A frame is heard and accepted; as what, and what changes.
    Hears(&'static str, Verdict, &'static [Told]),
    /// A frame is heard and dropped, and nothing changes.
    Drops(&'static str, DropReason),
    /// The station starts again under this identifier; what changes.
    Restarts(u8, &'static [Told]),
    /// It holds these keys, and transmits under the last one.
    Holds([Option<HeldKey>; 3]),
    /// It hears so many other members that it cannot remember one more.
    Fills,
}

/// What a station that makes keys of a suite does, once it has met the other one.
#[derive(Clone, Copy)]
struct Case {
    name: &'static str,
    who: Who,
    suite: Suite,
    steps: &'static [Step],
}

/// The draw that is this number.
fn drawn(number: u8) -> [u8; 16] {
    u128::from(number).to_be_bytes()
}

/// The member identifier that is this number.
fn mi(number: u8) -> Mi {
    Mi([0, 0, 0, 0, 0, 0, 0, 0, 0, 0, 0, number])
}

/// The group of the frames.
fn group(rt: &impl Abort, alloc: Global) -> Group {
    let cak: u128 = 0x000102030405060708090a0b0c0d0e0f;
    Group::of(alloc, Secret::S128(cak.to_be_bytes()), &[1, 2, 3, 4]).expect(rt, "a group")
}

/// A station that makes keys of this suite.
fn station(rt: &impl Abort, alloc: Global, who: Who, suite: Suite) -> Station {
    let (number, channel, priority) = match who {
        A => (1, 0x0a, 16),
        B => (2, 0x0b, 32),
    };
    let config = Config {
        sci: Sci([2, 0, 0, 0, 0, channel, 0, 1]),
        priority,
        rekey: Rekey {
            from: 3221225472,
            as_old: false,
        },
        conf: true,
        early_flag: false,
        group: group(rt, alloc),
        suite,
    };
    Station::start(alloc, config, 0, drawn(number)).expect(rt, "memory")
}

/// What is told of a key.
fn summary(change: &Change) -> Told {
    match change {
        Change::Dropped(held) => Dropped(held.key.id.number),
        Change::Retired(held) => Told::Retired(held.key.id.number),
        Change::Began { key, cause } => Began(key.key.id.number, *cause),
        Change::Installed(held) => Installed(held.key.id.number, held.key.an, held.key.epoch),
        Change::Untaken { id, why } => Untaken(id.number, *why),
    }
}

/// The server, where it changes, and then the keys.
fn facts(rt: &impl Abort, alloc: Global, reaction: &Reaction) -> Vec<Told> {
    let mut told = Vec::new(alloc);
    match &reaction.server {
        Some(Some(mi)) => told.push(Elected(mi.0[11])).expect(rt, "memory"),
        Some(None) => told.push(Lost).expect(rt, "memory"),
        None => {}
    }
    for change in reaction.changes.as_slice() {
        told.push(summary(change)).expect(rt, "memory");
    }
    told
}

/// Whether the station told this, and sent this frame, or none.
fn is_told(
    rt: &impl Abort,
    alloc: Global,
    reaction: &Reaction,
    wanted: &[Told],
    frame: &str,
) -> bool {
    let told = facts(rt, alloc, reaction);
    let octets = hex::decode(alloc, frame).expect(rt, "octets");
    let sent = match &reaction.sent {
        Some(sent) => sent.as_slice(),
        None => &[],
    };
    told.as_slice() == wanted && sent == octets.as_slice()
}

/// What frames were seen at a tick.
fn seen(next: u64) -> Seen {
    Seen {
        next,
        latest: 1,
        old: 1,
    }
}

/// A tick, where 3 is drawn next.
fn tick(rt: &impl Abort, station: &mut Station, next: u64) -> Reaction {
    let mut draws = CountDraws::new();
    assert!(rt; draws.draw().is_some() && draws.draw().is_some());
    assert!(rt; station.has_room());
    station.tick(&seen(next), &mut draws).expect(rt, "memory")
}

/// Whether a tick is refused where one draw is left.
fn is_refused(rt: &impl Abort, alloc: Global, station: &mut Station) -> bool {
    let mut values = Blocks::new(alloc);
    values.push(drawn(3)).expect(rt, "memory");
    assert!(rt; station.has_room());
    let ticked = station.tick(&seen(0), &mut ListDraws::of(values));
    matches!(ticked, Err(TickError::DrawsSpent))
}

/// A frame is heard.
fn hear(rt: &impl Abort, station: &mut Station, frame: &[u8]) -> Reaction {
    assert!(rt; station.has_room());
    station.hear(frame).expect(rt, "memory")
}

/// Whether a tick comes to this.
fn ticks(
    rt: &impl Abort,
    alloc: Global,
    station: &mut Station,
    next: u64,
    wanted: &[Told],
    frame: &str,
) -> bool {
    let reaction = tick(rt, station, next);
    reaction.heard.is_none() && is_told(rt, alloc, &reaction, wanted, frame)
}

/// Whether the hearing of a frame comes to this.
fn hears(
    rt: &impl Abort,
    alloc: Global,
    station: &mut Station,
    frame: &str,
    verdict: Verdict,
    wanted: &[Told],
) -> bool {
    let octets = hex::decode(alloc, frame).expect(rt, "octets");
    let reaction = hear(rt, station, &octets);
    reaction.heard == Some(verdict) && is_told(rt, alloc, &reaction, wanted, "")
}

/// Whether a restart under this identifier comes to this.
fn restarts(
    rt: &impl Abort,
    alloc: Global,
    station: &mut Station,
    number: u8,
    wanted: &[Told],
) -> bool {
    let reaction = station.restart(drawn(number)).expect(rt, "memory");
    let told = reaction.heard.is_none() && is_told(rt, alloc, &reaction, wanted, "");
    told && *station.mi() == mi(number)
}

/// Whether the station holds these keys, and transmits under the last one.
fn holds(station: &Station, keys: &[Option<HeldKey>; 3]) -> bool {
    let [latest, old, transmitting] = keys;
    station.latest() == *latest && station.old() == *old && station.transmitting() == *transmitting
}

/// A1 with its member, its channel and its check value left out.
const HELLO: [u8; 70] = [
    0x01, 0x80, 0xc2, 0, 0, 3, 2, 0, 0, 0, 0, 0x0a, 0x88, 0x8e, 3, 5, 0, 0x34, 1, 0x10, 0x60, 0x20,
    2, 0, 0, 0, 0, 0, 0, 1, 0, 0, 0, 0, 0, 0, 0, 0, 0, 0, 0, 0, 0, 0, 0, 1, 0, 0x80, 0xc2, 1, 1, 2,
    3, 4, 0, 0, 0, 0, 0, 0, 0, 0, 0, 0, 0, 0, 0, 0, 0, 0,
];

/// A1 from another member, under a channel of its own.
fn hello(ick: &aes_block::Key, member: u8) -> [u8; 70] {
    let mut octets = HELLO;
    octets[27] = member;
    octets[41] = member;
    let check = cmac(ick, &octets[..54]);
    octets[54..].copy_from_slice(&check);
    octets
}

/// What becomes of the first announcement of a member.
fn meets(
    rt: &impl Abort,
    station: &mut Station,
    ick: &aes_block::Key,
    member: u8,
) -> Option<Verdict> {
    hear(rt, station, &hello(ick, member)).heard
}

/// Whether the station, which knows one other member, remembers 64 and no more.
fn fills(rt: &impl Abort, alloc: Global, station: &mut Station) -> bool {
    let Group { ick, .. } = group(rt, alloc);
    for member in 100..163 {
        if meets(rt, station, &ick, member) != Some(Unvouched) {
            return false;
        }
    }
    meets(rt, station, &ick, 163) == Some(Verdict::Dropped(Refused(PeersFull)))
}

/// Whether a step comes to what it tells.
fn play(rt: &impl Abort, alloc: Global, station: &mut Station, step: &Step) -> bool {
    match step {
        Ticks(next, told, frame) => ticks(rt, alloc, station, *next, told, frame),
        Spends => is_refused(rt, alloc, station),
        Hears(frame, verdict, told) => hears(rt, alloc, station, frame, *verdict, told),
        Drops(frame, why) => hears(rt, alloc, station, frame, Verdict::Dropped(*why), &[]),
        Restarts(number, told) => restarts(rt, alloc, station, *number, told),
        Holds(keys) => holds(station, keys),
        Fills => fills(rt, alloc, station),
    }
}

/// Plays the steps of a part of a life; each gives what it says.
fn plays(rt: &impl Abort, alloc: Global, station: &mut Station, name: &str, steps: &[Step]) {
    for (at, step) in steps.iter().enumerate() {
        assert!(rt; play(rt, alloc, station, step), "{name}: step {at}");
    }
}

/// Plays the life of a station that meets the other one first.
fn lives(rt: &impl Abort, alloc: Global, case: &Case) {
    let mut station = station(rt, alloc, case.who, case.suite);
    let meeting: &[Step] = match case.who {
        A => &A_MEETS,
        B => &B_MEETS,
    };
    plays(rt, alloc, &mut station, "meeting", meeting);
    plays(rt, alloc, &mut station, case.name, case.steps);
}

/// A hears B and is elected.
const A_MEETS: [Step; 4] = [
    Ticks(0, &[], A1),
    Hears(B1, Unvouched, &[]),
    Ticks(0, &[], A2),
    Hears(B2, Vouched, &[Elected(1)]),
];

/// B hears A and elects it.
const B_MEETS: [Step; 4] = [
    Ticks(0, &[], B1),
    Hears(A1, Unvouched, &[]),
    Ticks(0, &[], B2),
    Hears(A2, Vouched, &[Elected(1)]),
];

/// The first key: A makes it of the third draw, and each holds it under its own first epoch.
const FIRST: Key = Key {
    id: KeyId {
        server: Mi([0, 0, 0, 0, 0, 0, 0, 0, 0, 0, 0, 1]),
        number: 1,
    },
    an: An0,
    sak: Secret::S128([0, 0, 0, 0, 0, 0, 0, 0, 0, 0, 0, 0, 0, 0, 0, 3]),
    conf: true,
    epoch: 1,
};

const FIRST_BEGUN: HeldKey = HeldKey {
    key: FIRST,
    begun: true,
};

const SHARING: [Case; 2] = [
    Case {
        name: "A makes the first key, and begins it when B reports it",
        who: A,
        suite: GcmAes128,
        steps: &[
            Ticks(0, &[Installed(1, An0, 1)], A3),
            Hears(B3, Vouched, &[]),
            Ticks(0, &[], ""),
            Hears(B4, Vouched, &[]),
            Ticks(0, &[Began(1, Cause::All)], A4),
            Ticks(1, &[], ""),
            Hears(B5, Vouched, &[]),
            Holds([Some(FIRST_BEGUN), None, Some(FIRST_BEGUN)]),
        ],
    },
    Case {
        name: "B takes the first key, and begins it when A does",
        who: B,
        suite: GcmAes128,
        steps: &[
            Ticks(0, &[], B3),
            Hears(A3, Vouched, &[Installed(1, An0, 1)]),
            Ticks(0, &[], B4),
            Ticks(0, &[], ""),
            Hears(A4, Vouched, &[Began(1, Cause::Flag)]),
            Ticks(1, &[], B5),
            Holds([Some(FIRST_BEGUN), None, Some(FIRST_BEGUN)]),
        ],
    },
];

/// Nothing that A said before gives B a key.
const STARTING_AGAIN: Case = Case {
    name: "B takes the first key, begins it and starts again",
    who: B,
    suite: GcmAes128,
    steps: &[
        Ticks(0, &[], B3),
        Hears(A3, Vouched, &[Installed(1, An0, 1)]),
        Ticks(0, &[], B4),
        Hears(A4, Vouched, &[Began(1, Cause::Flag)]),
        Restarts(4, &[Lost, Dropped(1)]),
        Hears(A1, Unvouched, &[]),
        Hears(A2, Unvouched, &[]),
        Hears(A3, Unvouched, &[Untaken(1, Why::NotListed)]),
        Hears(A4, Unvouched, &[]),
        Drops(A3, Refused(OldNumber { kept: 4 })),
        Holds([None; 3]),
    ],
};

const DROPPING: Case = Case {
    name: "B drops frames for the first reason",
    who: B,
    suite: GcmAes128,
    steps: &[
        Drops(OTHER_TYPE, Unspelled(NotMka)),
        Drops(CUT, Unspelled(Short)),
        Drops(ODD, Unspelled(Shape { at: 54 })),
        Drops(TWICE, Unspelled(Repeated { kind: 1 })),
        Drops(OTHER_AGILITY, Unspelled(Agility)),
        Drops(OTHER_NAME, CkName),
        Drops(OTHER_END, Check),
        Drops(OTHER_SOURCE, Check),
        Drops(B1, Refused(Echo)),
        Drops(OWN_MI, Refused(Echo)),
        Drops(OWN_SCI, Refused(Echo)),
        Drops(A1, Refused(OldNumber { kept: 2 })),
        Drops(A2, Refused(OldNumber { kept: 2 })),
    ],
};

const TAKING: Case = Case {
    name: "B is offered keys that it does not take, and some that it takes",
    who: B,
    suite: GcmAes128,
    steps: &[
        Hears(HOPING, Vouched, &[Untaken(1, Why::NotListed)]),
        Hears(THIRD, Vouched, &[Untaken(1, Why::NotServer)]),
        Hears(OTHER_SUITE, Vouched, &[Untaken(1, Why::Suite)]),
        Hears(OFFSET_30, Vouched, &[Untaken(1, Why::Offset)]),
        Hears(OFFSET_50, Vouched, &[Untaken(1, Why::Offset)]),
        Hears(OTHER_WRAP, Vouched, &[Untaken(1, Why::Wrap)]),
        Hears(KEY_1, Vouched, &[Installed(1, An2, 1)]),
        Hears(KEY_1_AGAIN, Vouched, &[Untaken(1, Why::Seen { kept: 1 })]),
        Hears(
            KEY_2_BEGINS,
            Vouched,
            &[Dropped(1), Installed(2, An2, 2), Began(2, Cause::Flag)],
        ),
        Hears(KEY_3, Vouched, &[Installed(3, An3, 3)]),
        Hears(
            KEY_3_BEGINS,
            Vouched,
            &[Untaken(3, Why::Seen { kept: 3 }), Began(3, Cause::Flag)],
        ),
        Hears(KEY_4, Vouched, &[Untaken(4, Why::Retiring)]),
    ],
};

/// The first key, where it is one of 256 bits.
const LONG: HeldKey = HeldKey {
    key: Key {
        sak: Secret::S256([
            0, 0, 0, 0, 0, 0, 0, 0, 0, 0, 0, 0, 0, 0, 0, 3, 0, 0, 0, 0, 0, 0, 0, 0, 0, 0, 0, 0, 0,
            0, 0, 4,
        ]),
        ..FIRST
    },
    begun: false,
};

const LONG_KEYS: [Case; 2] = [
    Case {
        name: "A makes a key of 256 bits, which takes two draws",
        who: A,
        suite: GcmAes256,
        steps: &[Spends, Ticks(0, &[Installed(1, An0, 1)], LONG_KEY)],
    },
    Case {
        name: "B takes it",
        who: B,
        suite: GcmAes256,
        steps: &[
            Hears(LONG_KEY, Vouched, &[Installed(1, An0, 1)]),
            Holds([Some(LONG), None, None]),
        ],
    },
];

const FULL: Case = Case {
    name: "B remembers 64 other members and no more",
    who: B,
    suite: GcmAes128,
    steps: &[Fills],
};

#[test]
fn stations_hear_and_tick(rt: HostRuntime) {
    for case in &SHARING {
        lives(&rt, rt.alloc(), case);
    }
    for case in &LONG_KEYS {
        lives(&rt, rt.alloc(), case);
    }
    for case in [&STARTING_AGAIN, &DROPPING, &TAKING, &FULL] {
        lives(&rt, rt.alloc(), case);
    }
}
