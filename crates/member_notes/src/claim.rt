//! What is kept of an MKPDU that serves.

ghost use Rattle.std.specs.Prelude.{◌≡◌, List, IfOk};
ghost use Rattle.member_notes.specs.Facts.{spoken};
ghost use Rattle.member_notes.specs.FactsKept.{claim_in};
ghost use Rattle.member_notes.specs.inside.Hearing.{rivals};
ghost use Rattle.member_notes.specs.declared.mkpdu.RightMkpdu.{RightMkpdu};
ghost use Rattle.std.specs.List.{list_any};
ghost use Rattle.lan_base.specs.Identifiers.{same_mi};

use crate::mkpdu::RightMkpdu;
use lan_base::{Mi, Sci, is_recent};
use mkpdu_codec::{Announcement, Peer, Peers};
use std::alloc::{AllocError, Global};

/// When it came, its SCI, and whom it lists as live.
#[derive(Drop)]
pub struct Claim {
    pub nanos: u64,
    pub sci: Sci,
    pub live: Peers,
}

impl Claim {
    /// What is kept of what an MKPDU says, if it serves.
    pub fn of(alloc: Global, nanos: u64, said: &Announcement) -> Result<Option<Claim>, AllocError>
        ensures { (mkpdu : RightMkpdu) → IfOk result (λ claim. claim ≡ claim_in (spoken mkpdu nanos said.now)) }
    {
        if !said.server {
            return Ok(None);
        }
        let live = copied(alloc, said.live.as_slice())?;
        Ok(Some(Claim {
            nanos,
            sci: said.sci,
            live,
        }))
    }

    /// Whether it stands against what an MKPDU says that serves too.
    pub fn rivals(&self, mkpdu: &RightMkpdu, nanos: u64, said: &Announcement) -> bool
        ensures { result ≡ rivals (spoken mkpdu.now nanos said.now) (Some self.now) }
    {
        is_recent(self.nanos, nanos)
            && self.sci != said.sci
            && lists(self.live.as_slice(), mkpdu.mi)
    }
}

/// The same peers, in memory of their own.
fn copied(alloc: Global, peers: &[Peer]) -> Result<Peers, AllocError>
    ensures { IfOk result (λ copy. copy ≡ peers.now) }
{
    let mut copy = Peers::new(alloc);
    for peer in peers {
        copy.push(*peer)?;
    }
    Ok(copy)
}

/// Whether a member is among peers.
fn lists(peers: &[Peer], mi: Mi) -> bool
    ensures { result ≡ list_any (λ p. same_mi p.mi mi) peers.now }
{
    peers.iter().any(|peer| peer.mi == mi)
}
