//! What is told of a member.

ghost use Rattle.std.specs.Prelude.{◌≡◌, [], IsTrue};
ghost use Rattle.member_notes.specs.Facts.{times};
ghost use Rattle.member_notes.specs.inside.Fewness.{kinds_of, no_kinds};
ghost use Rattle.member_notes.specs.inside.Hearing.{counts_with, more_of, times_with};

use crate::novelty::MkpduNovelty;
use lan_base::{Mi, Sci};

/// How many of a member's MKPDUs are of a kind, and the packet of the first one: 0 for none.
#[derive(Clone, Copy, Debug, PartialEq, Eq)]
pub struct Times {
    pub count: u32,
    pub first: u32,
}

/// What is told of the right MKPDUs of a member.
#[derive(Clone, Copy, Debug, PartialEq, Eq)]
pub struct MemberCounts {
    /// The SCI of the first one.
    pub sci: Sci,
    /// How many there are.
    pub mkpdus: u32,
    /// How many come again.
    pub again: u32,
    /// How many new ones give a key.
    pub given: u32,
    /// Those that fell behind.
    pub fell: Times,
    /// Those that serve, and list one as live that serves too and lists their member.
    pub servers: Times,
    /// Those that give a key with a number below one that the member gave before.
    pub returned: Times,
    /// Those that show a key in use near the end of its packet numbers.
    pub high: Times,
}

/// Of four kinds how many MKPDUs of a member there are, as `MemberCounts` has them.
#[derive(Clone, Copy)]
pub struct Kinds {
    pub fell: Times,
    pub servers: Times,
    pub returned: Times,
    pub high: Times,
}

/// What is told of a member: of a group, under an MI.
#[derive(Clone, Copy, Debug, PartialEq, Eq)]
pub struct Member {
    /// The group, counted from 1.
    pub group: u32,
    /// The member identifier (MI).
    pub mi: Mi,
    pub counts: MemberCounts,
}

/// What an MKPDU is among those of its member.
#[derive(Clone, Copy)]
pub struct Telling {
    pub packet: u32,
    pub novelty: MkpduNovelty,
    pub gives: bool,
    pub serves_too: bool,
    pub gives_back: bool,
    pub is_high: bool,
}

impl Times {
    fn none() -> Times
        ensures { result ≡ times [] }
    {
        Times { count: 0, first: 0 }
    }

    fn is_none(&self) -> bool
        ensures { IsTrue result → self.now ≡ times [] }
    {
        self.count == 0 && self.first == 0
    }

    fn with(&self, counted: bool, packet: u32) -> Times
        ensures { result ≡ times_with counted packet self.now }
    {
        if !counted {
            return *self;
        }
        Times {
            count: more(self.count, true),
            first: if self.count == 0 { packet } else { self.first },
        }
    }
}

impl Kinds {
    /// Of no MKPDU.
    pub(crate) fn none() -> Kinds
        ensures { result ≡ no_kinds }
    {
        Kinds {
            fell: Times::none(),
            servers: Times::none(),
            returned: Times::none(),
            high: Times::none(),
        }
    }

    /// Of which there are none.
    pub(crate) fn are_none(&self) -> bool
        ensures { IsTrue result → self.now ≡ no_kinds }
    {
        self.fell.is_none()
            && self.servers.is_none()
            && self.returned.is_none()
            && self.high.is_none()
    }
}

impl MemberCounts {
    /// How many there are of four kinds.
    pub(crate) fn kinds(&self) -> Kinds
        ensures { result ≡ kinds_of self.now }
    {
        Kinds {
            fell: self.fell,
            servers: self.servers,
            returned: self.returned,
            high: self.high,
        }
    }

    /// Of one more.
    pub(crate) fn with(&self, it: &Telling) -> MemberCounts
        ensures { result ≡ counts_with it.now self.now }
    {
        MemberCounts {
            sci: self.sci,
            mkpdus: more(self.mkpdus, true),
            again: more(self.again, it.novelty.is_again()),
            given: more(self.given, it.gives),
            fell: self.fell.with(it.novelty.has_fallen(), it.packet),
            servers: self.servers.with(it.serves_too, it.packet),
            returned: self.returned.with(it.gives_back, it.packet),
            high: self.high.with(it.is_high, it.packet),
        }
    }
}

/// A count with one more, if that is counted.
fn more(count: u32, counted: bool) -> u32
    ensures { result ≡ more_of count counted }
{
    count.saturating_add(u32::from(counted))
}
