//! Lives of a station, step by step: whom it hears, who is live, and what it forgets.

use Outcome::{Dropped, Unvouched, Vouched};
use PeerRefusal::{Echo, OldNumber, PeersFull};
use Standing::{Displaced, Live, Potential};
use Step::{Fills, Lists, Plain, Recent, Rows, Sends, Ticks};
use lan_base::{Mi, Sci};
use peer_lists::{Heard, Outcome, PeerRefusal, PeerTable, Row};
use std::alloc::Global;
use std::process::Abort;

/// How a member stands among those that are remembered.
#[derive(Clone, Copy, PartialEq, Eq)]
enum Standing {
    Live,
    Potential,
    /// Neither: another member has its SCI.
    Displaced,
}

/// What is shown of a member: the last octet of its identifier, its message number, the first octet
/// of its SCI, and how it stands.
#[derive(Clone, Copy)]
struct Shown(u8, u32, u8, Standing);

/// What happens in a life, and what is to be seen of it.
#[derive(Clone, Copy)]
enum Step {
    /// So many ticks pass.
    Ticks(u8),
    /// So many ticks pass, and in each the life sends its next number.
    Sends(u8),
    /// A member that lists nobody is heard: the last octet of its identifier, the first of its SCI,
    /// its message number, and what hearing it comes to.
    Plain(u8, u8, u32, Outcome),
    /// The same, and it lists the station under a number.
    Lists(u8, u8, u32, u32, Outcome),
    /// As many other members as are remembered are heard: 101 and those that follow.
    Fills,
    /// The rows are these.
    Rows(&'static [Shown]),
    /// Whether a number is recent.
    Recent(u32, bool),
}

/// A life of a station with the member identifier 9 and the SCI 90.
#[derive(Clone, Copy)]
struct Case {
    name: &'static str,
    steps: &'static [Step],
}

const LIVES: [Case; 7] = [
    Case {
        name: "a member is forgotten after the life time",
        steps: &[
            Plain(1, 10, 5, Unvouched),
            Ticks(59),
            Rows(&[Shown(1, 5, 10, Potential)]),
            Plain(1, 10, 5, Dropped(OldNumber { kept: 5 })),
            Ticks(1),
            Rows(&[]),
            Plain(1, 10, 5, Unvouched),
        ],
    },
    Case {
        name: "an old own number vouches no more",
        steps: &[
            Recent(1, false),
            Sends(1),
            Recent(1, true),
            Lists(1, 10, 1, 1, Vouched),
            Lists(2, 20, 1, 2, Unvouched),
            Rows(&[Shown(1, 1, 10, Live), Shown(2, 1, 20, Potential)]),
            Ticks(59),
            Recent(1, true),
            Lists(3, 30, 1, 1, Vouched),
            Ticks(1),
            Recent(1, false),
            Lists(4, 40, 1, 1, Unvouched),
            Rows(&[Shown(3, 1, 30, Live), Shown(4, 1, 40, Potential)]),
        ],
    },
    Case {
        name: "a live member says its last vouched words",
        steps: &[
            Sends(1),
            Lists(1, 10, 1, 1, Vouched),
            Ticks(30),
            Plain(1, 20, 2, Unvouched),
            Ticks(29),
            Rows(&[Shown(1, 2, 10, Live)]),
            Ticks(1),
            Rows(&[Shown(1, 2, 20, Potential)]),
        ],
    },
    Case {
        name: "sixty numbers are recent",
        steps: &[
            Sends(61),
            Recent(0, false),
            Recent(1, false),
            Recent(2, true),
            Recent(61, true),
            Recent(62, false),
            Recent(121, false),
        ],
    },
    Case {
        name: "two members of one SCI alternate",
        steps: &[
            Sends(1),
            Lists(2, 10, 1, 1, Vouched),
            Plain(1, 10, 1, Unvouched),
            Rows(&[Shown(1, 1, 10, Potential), Shown(2, 1, 10, Live)]),
            Lists(1, 10, 2, 1, Vouched),
            Rows(&[Shown(1, 2, 10, Live), Shown(2, 1, 10, Displaced)]),
            Plain(2, 10, 2, Unvouched),
            Rows(&[Shown(1, 2, 10, Live), Shown(2, 2, 10, Potential)]),
            Lists(2, 10, 3, 1, Vouched),
            Rows(&[Shown(1, 2, 10, Displaced), Shown(2, 3, 10, Live)]),
            Lists(2, 20, 4, 1, Vouched),
            Rows(&[Shown(1, 2, 10, Displaced), Shown(2, 4, 20, Live)]),
        ],
    },
    Case {
        name: "an echo has the own identifier or SCI",
        steps: &[
            Plain(9, 10, 1, Dropped(Echo)),
            Plain(1, 90, 1, Dropped(Echo)),
            Rows(&[]),
        ],
    },
    Case {
        name: "sixty-four others are remembered",
        steps: &[
            Fills,
            Plain(1, 1, 1, Dropped(PeersFull)),
            Plain(164, 164, 2, Unvouched),
            Ticks(60),
            Plain(1, 1, 1, Unvouched),
            Rows(&[Shown(1, 1, 1, Potential)]),
        ],
    },
];

/// The member identifier whose last octet is this one, after zeros.
fn mi(last: u8) -> Mi {
    Mi([0, 0, 0, 0, 0, 0, 0, 0, 0, 0, 0, last])
}

/// The channel whose address begins with this octet, before zeros.
fn sci(first: u8) -> Sci {
    Sci([first, 0, 0, 0, 0, 0, 0, 1])
}

/// An announcement of a member, which may list the station with a number.
fn heard(member: u8, channel: u8, mn: u32, listed: Option<u32>) -> Heard {
    Heard {
        mi: mi(member),
        sci: sci(channel),
        priority: channel,
        mn,
        lists: listed.is_some(),
        listed: listed.unwrap_or(0),
        uses: None,
    }
}

/// Plays the steps of a life.
fn plays(rt: &impl Abort, alloc: Global, case: &Case) {
    let mut table = PeerTable::new(alloc, mi(9), sci(90)).expect(rt, "memory");
    for step in case.steps {
        play(rt, &mut table, *step, case.name);
    }
}

/// Plays one step, which gives what it says.
fn play(rt: &impl Abort, table: &mut PeerTable, step: Step, name: &str) {
    match step {
        Ticks(count) => pass(table, count),
        Sends(count) => send(table, count),
        Plain(member, channel, mn, wanted) => {
            let got = table.hear(&heard(member, channel, mn, None));
            assert_eq!(rt; got, wanted, "{}", name);
        }
        Lists(member, channel, mn, listed, wanted) => {
            let got = table.hear(&heard(member, channel, mn, Some(listed)));
            assert_eq!(rt; got, wanted, "{}", name);
        }
        Fills => fill(rt, table),
        Rows(rows) => shows(rt, table, rows, name),
        Recent(mn, wanted) => assert_eq!(rt; table.recent(mn), wanted, "{}", name),
    }
}

/// So many ticks pass.
fn pass(table: &mut PeerTable, count: u8) {
    for _ in 0..count {
        table.tick();
    }
}

/// So many ticks pass, and in each the next number is sent.
fn send(table: &mut PeerTable, count: u8) {
    for _ in 0..count {
        table.tick();
        let last = table.last_sent();
        if table.may_send() && last < u32::MAX {
            table.sent(last + 1);
        }
    }
}

/// Hears 64 members, of the numbers 101 to 164, which fill the table.
fn fill(rt: &impl Abort, table: &mut PeerTable) {
    for member in 101..165 {
        assert_eq!(rt; table.hear(&heard(member, member, 1, None)), Unvouched);
    }
    assert_eq!(rt; table.len(), 64);
}

/// The rows are these, in their order.
fn shows(rt: &impl Abort, table: &PeerTable, rows: &[Shown], name: &str) {
    assert_eq!(rt; table.len(), rows.len(), "{}", name);
    assert!(rt; table.row(rows.len()).is_none());
    for (at, Shown(member, mn, channel, standing)) in rows.iter().enumerate() {
        let wanted = Row {
            mi: mi(*member),
            mn: *mn,
            sci: sci(*channel),
            priority: *channel,
            live: *standing == Live,
            potential: *standing == Potential,
            uses: None,
        };
        assert_eq!(rt; table.row(at), Some(wanted), "{}", name);
    }
}

#[test]
fn hears_and_forgets(rt: HostRuntime) {
    for case in &LIVES {
        plays(&rt, rt.alloc(), case);
    }
}
