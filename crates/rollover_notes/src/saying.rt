//! What a member said last.

ghost use Rattle.std.specs.Prelude.{◌≡◌, IfOk};
ghost use Rattle.lan_base.specs.Instants.{is_recent};
ghost use Rattle.rollover_notes.specs.Speaking.{said_of};
ghost use Rattle.rollover_notes.specs.inside.Saying.{said_in};

use lan_base::{Mi, Sci, is_recent};
use mkpdu_codec::{Announcement, Peer};
use std::alloc::{AllocError, Global};
use std::marker::Model;

/// A member: a group and an MI.
pub type Member = (u32, Mi);

/// What counts of an MKPDU: under which SCI, when, and which peers it lists, live or potential.
#[derive(Drop)]
pub struct Saying {
    kept: KeptSaying,
}

impl Model for Saying {
    ghost use Rattle.rollover_notes.specs.Speaking.{Said};
    ghost use Rattle.rollover_notes.specs.inside.Saying.{said_in};

    ghost Value = { Said };

    ghost view = { λ s. said_in s.kept };
}

/// Of one that lists nobody, and of one that lists peers.
#[derive(Drop)]
enum KeptSaying {
    Alone { sci: Sci, nanos: u64 },
    Listing(Box<Listing>),
}

#[derive(Drop)]
struct Listing {
    sci: Sci,
    nanos: u64,
    listed: Vec<Peer>,
}

impl Saying {
    /// What counts of an announcement at a time.
    pub fn of(alloc: Global, nanos: u64, said: &Announcement) -> Result<Saying, AllocError>
        ensures { IfOk result (λ s. s ≡ said_of nanos said.now) }
    {
        let mut listed = Vec::from_slice(alloc, said.live.as_slice())?;
        listed.extend_from_slice(said.potential.as_slice())?;
        Ok(Saying {
            kept: KeptSaying::of(alloc, said.sci, nanos, listed)?,
        })
    }

    /// The SCI under which it was said.
    pub fn sci(&self) -> Sci
        ensures { result ≡ self.now.sci }
    {
        match &self.kept {
            KeptSaying::Alone { sci, .. } => *sci,
            KeptSaying::Listing(listing) => listing.sci,
        }
    }

    /// The peers that it lists.
    pub fn listed(&self) -> &[Peer]
        ensures { result.now ≡ self.now.listed }
    {
        match &self.kept {
            KeptSaying::Alone { .. } => &[],
            KeptSaying::Listing(listing) => listing.listed.as_slice(),
        }
    }

    /// Whether it was said less than MKA Life Time before a time, or behind it.
    pub fn is_recent(&self, time: u64) -> bool
        ensures { result ≡ is_recent self.now.nanos time }
    {
        is_recent(self.nanos(), time)
    }

    fn nanos(&self) -> u64
        ensures { result ≡ self.now.nanos }
    {
        match &self.kept {
            KeptSaying::Alone { nanos, .. } => *nanos,
            KeptSaying::Listing(listing) => listing.nanos,
        }
    }
}

impl KeptSaying {
    fn of(alloc: Global, sci: Sci, nanos: u64, listed: Vec<Peer>) -> Result<KeptSaying, AllocError>
        ensures { IfOk result (λ kept. said_in kept ≡ record { sci = sci; nanos = nanos; listed = listed.items }) }
    {
        if listed.is_empty() {
            return Ok(KeptSaying::Alone { sci, nanos });
        }
        let listing = Listing { sci, nanos, listed };
        Ok(KeptSaying::Listing(Box::new(alloc, listing)?))
    }
}
