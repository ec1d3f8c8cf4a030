//! What an MKPDU is behind the ones before it.

ghost use Rattle.std.specs.Prelude.{◌≡◌};
ghost use Rattle.member_notes.specs.Facts.{fallen_mkpdu, new_mkpdu, repeated_mkpdu};
ghost use Rattle.member_notes.specs.Mkpdus.{novelty_after, risen};

use crate::mkpdu::{First, RightMkpdu};

/// What a right MKPDU is behind the right ones before it of its member.
#[derive(Clone, Copy, Debug, PartialEq, Eq)]
pub enum MkpduNovelty {
    /// Its message number is above those of all of them.
    New,
    /// Its message number isn't above those of all of them.
    Fell,
    /// The first one with its message number has its check value too.
    Again {
        /// The packet of that one.
        first: u32,
    },
}

impl MkpduNovelty {
    /// Whether its message number is above those of all before it.
    pub fn is_new(&self) -> bool
        ensures { result ≡ new_mkpdu self.now }
    {
        matches!(self, MkpduNovelty::New)
    }

    /// Whether its message number isn't, and it comes for the first time.
    pub fn has_fallen(&self) -> bool
        ensures { result ≡ fallen_mkpdu self.now }
    {
        matches!(self, MkpduNovelty::Fell)
    }

    /// Whether it comes again.
    pub fn is_again(&self) -> bool
        ensures { result ≡ repeated_mkpdu self.now }
    {
        matches!(self, MkpduNovelty::Again { .. })
    }

    /// What an MKPDU is behind the first one with its message number, if there is one.
    pub(crate) fn after(first: Option<First>, above: bool, mkpdu: &RightMkpdu) -> MkpduNovelty
        ensures { result ≡ novelty_after first above mkpdu.now }
    {
        match first {
            Some(first) if first.has_check_of(mkpdu) => MkpduNovelty::Again {
                first: first.packet,
            },
            _ => risen(above),
        }
    }
}

/// What an MKPDU is that comes for the first time.
fn risen(above: bool) -> MkpduNovelty
    ensures { result ≡ risen above }
{
    if above {
        MkpduNovelty::New
    } else {
        MkpduNovelty::Fell
    }
}
