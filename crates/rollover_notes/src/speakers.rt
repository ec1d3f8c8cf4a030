//! What members said last, and who spoke last under an SCI.

ghost use Rattle.std.specs.Prelude.{◌≡◌, [], OnOk};
ghost use Rattle.std.specs.List.{list_any};
ghost use Rattle.rollover_notes.specs.Speaking.{is_near, is_under, said_of};
ghost use Rattle.rollover_notes.specs.inside.Speaking.{IsSpokenMore};
ghost use Rattle.rollover_notes.specs.inside.Walking.{is_voice, said_by};

use crate::saying::{Member, Saying};
use lan_base::{Mi, Sci};
use member_notes::RightMkpdu;
use mkpdu_codec::{Announcement, Peer};
use std::alloc::{AllocError, Global};
use std::collections::BTreeMap;
use use_notes::RightFrame;

/// What each member said last, and by group and SCI the MI that spoke last under it.
#[derive(Drop)]
pub struct Speakers {
    pub said: BTreeMap<Member, Saying>,
    pub last: BTreeMap<(u32, Sci), Mi>,
}

impl Speakers {
    /// Nobody spoke. No memory is taken.
    pub fn new(alloc: Global) -> Speakers
        ensures said { result.said.entries ≡ [] }
        ensures last { result.last.entries ≡ [] }
    {
        Speakers {
            said: BTreeMap::new(alloc),
            last: BTreeMap::new(alloc),
        }
    }

    /// A member speaks.
    pub fn take(
        &mut self,
        alloc: Global,
        mkpdu: &RightMkpdu,
        nanos: u64,
        said: &Announcement,
    ) -> Result<(), AllocError>
        ensures { OnOk result (IsSpokenMore mkpdu.now (said_of nanos said.now) self.old self.new) }
    {
        let saying = Saying::of(alloc, nanos, said)?;
        self.last.insert((mkpdu.group, said.sci), mkpdu.mi)?;
        self.said.insert((mkpdu.group, mkpdu.mi), saying)?;
        Ok(())
    }

    /// Whether a speaker of an SCI said its last under it, near a frame.
    pub fn is_voice(&self, at: (u32, Sci), mi: Mi, frame: &RightFrame) -> bool
        ensures { result ≡ is_voice (said_by self.now.said.entries) frame.now at (said_by self.now.said.entries (at.0, mi)) }
    {
        match self.said.get(&(at.0, mi)) {
            Some(saying) => saying.sci() == at.1 && is_near(&self.said, at.0, saying, frame),
            None => false,
        }
    }
}

/// Whether what a member of a group said last is near a frame.
fn is_near(said: &BTreeMap<Member, Saying>, group: u32, saying: &Saying, frame: &RightFrame) -> bool
    ensures { result ≡ is_near (λ mi. said_by said.now.entries (group, mi)) frame.now saying.now }
{
    saying.is_recent(frame.time)
        && saying.sci() != frame.sci
        && is_one_under(said, group, saying.listed(), frame.sci)
}

/// Whether one of these peers of a group said its last under an SCI.
fn is_one_under(said: &BTreeMap<Member, Saying>, group: u32, peers: &[Peer], sci: Sci) -> bool
    ensures { result ≡ list_any (λ p. is_under sci (said_by said.now.entries (group, p.mi))) peers.now }
{
    peers
        .iter()
        .any(|peer| is_under(said, (group, peer.mi), sci))
}

/// Whether a member said its last under an SCI.
fn is_under(said: &BTreeMap<Member, Saying>, member: Member, sci: Sci) -> bool
    ensures { result ≡ is_under sci (said_by said.now.entries member) }
{
    match said.get(&member) {
        Some(saying) => saying.sci() == sci,
        None => false,
    }
}
