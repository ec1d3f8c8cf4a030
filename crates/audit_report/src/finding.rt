//! What a packet is behind the ones before it.

ghost use Rattle.std.specs.Prelude.{◌≡◌};
ghost use Rattle.packet_verdicts.specs.declared.kind.Malformed.TheVariants.{Refused};
ghost use Rattle.audit_report.specs.Tallies.{distributes, gives_sak, is_because, is_dropped, is_for, is_foreign, is_malformed, is_mka, is_mka_cut, is_other, is_right_frame, is_right_mkpdu, is_sec, is_sec_cut, is_undecided, is_unknown, is_wrong_frame, is_wrong_mkpdu};

use aes_block::Secret;
use gcm_frames::TagRefusal;
use known_keys::{Gives, NoSak, Reason};
use lan_base::{AssociationNumber, KeyId};
use member_notes::{MkpduNovelty, RightMkpdu};
use mkpdu_codec::{ConfidentialityOffset, Refusal};
use packet_verdicts::Malformed;
use use_notes::{Novelty, RightFrame};

/// What a packet is behind the ones before it.
#[derive(Clone, Copy, Debug, PartialEq, Eq)]
pub enum Finding {
    /// Its link is not Ethernet.
    Foreign,
    /// It is neither a protected frame nor one of key agreement.
    Other,
    /// A protected frame whose end was not kept.
    SecCut,
    /// A frame with the EtherType of MACsec that can't be judged.
    Malformed(Malformed),
    /// A protected frame that is right under a key, and what it is behind the right ones before it.
    RightFrame {
        frame: RightFrame,
        novelty: Novelty,
    },
    /// A protected frame that is right under no key that is known to it, for this reason perhaps.
    Undecided(Reason),
    /// A protected frame that is right under no key that is known to it.
    WrongFrame,
    /// A frame of key agreement whose end was not kept.
    MkaCut,
    /// A frame of key agreement that spells nothing.
    Dropped(Refusal),
    /// An MKPDU of a CKN that no group has, and whether it distributes a key.
    Unknown {
        gives: bool,
    },
    /// An MKPDU that is right under no group with its CKN, and whether it distributes a key.
    WrongMkpdu {
        gives: bool,
    },
    /// An MKPDU that is right under a group, what it is behind the right ones before it of its
    /// member, and what is told of the key that it distributes.
    RightMkpdu {
        mkpdu: RightMkpdu,
        novelty: MkpduNovelty,
        handed: Option<Handed>,
    },
}

/// What is told of a key that a right MKPDU distributes.
#[derive(Clone, Copy, Debug, PartialEq, Eq)]
pub enum Handed {
    /// A key is given.
    Key {
        id: KeyId,
        an: AssociationNumber,
        offset: ConfidentialityOffset,
        sak: Secret,
        told: Gives,
    },
    /// No key is given, and whether the first of its group says so of the identifier.
    Untaken {
        id: KeyId,
        why: NoSak,
        is_new: bool,
    },
}

impl Finding {
    /// Whether its link is not Ethernet.
    pub(crate) fn is_foreign(&self) -> bool
        ensures { result ≡ is_foreign self.now }
    {
        matches!(self, Finding::Foreign)
    }

    /// Whether it is neither a protected frame nor one of key agreement.
    pub(crate) fn is_other(&self) -> bool
        ensures { result ≡ is_other self.now }
    {
        matches!(self, Finding::Other)
    }

    /// Whether it has the EtherType of MACsec.
    pub(crate) fn is_sec(&self) -> bool
        ensures { result ≡ is_sec self.now }
    {
        matches!(
            self,
            Finding::SecCut
                | Finding::Malformed(_)
                | Finding::RightFrame { .. }
                | Finding::Undecided(_)
                | Finding::WrongFrame
        )
    }

    /// Whether it is a protected frame whose end was not kept.
    pub(crate) fn is_sec_cut(&self) -> bool
        ensures { result ≡ is_sec_cut self.now }
    {
        matches!(self, Finding::SecCut)
    }

    /// Whether it is a frame with the EtherType of MACsec that can't be judged.
    pub(crate) fn is_malformed(&self) -> bool
        ensures { result ≡ is_malformed self.now }
    {
        matches!(self, Finding::Malformed(_))
    }

    /// Whether it is a protected frame that is right.
    pub(crate) fn is_right_frame(&self) -> bool
        ensures { result ≡ is_right_frame self.now }
    {
        matches!(self, Finding::RightFrame { .. })
    }

    /// Whether it is a protected frame of which nothing is said.
    pub(crate) fn is_undecided(&self) -> bool
        ensures { result ≡ is_undecided self.now }
    {
        matches!(self, Finding::Undecided(_))
    }

    /// Whether it is a protected frame that is wrong.
    pub(crate) fn is_wrong_frame(&self) -> bool
        ensures { result ≡ is_wrong_frame self.now }
    {
        matches!(self, Finding::WrongFrame)
    }

    /// Whether it is a frame of key agreement.
    pub(crate) fn is_mka(&self) -> bool
        ensures { result ≡ is_mka self.now }
    {
        matches!(
            self,
            Finding::MkaCut
                | Finding::Dropped(_)
                | Finding::Unknown { .. }
                | Finding::WrongMkpdu { .. }
                | Finding::RightMkpdu { .. }
        )
    }

    /// Whether it is a frame of key agreement whose end was not kept.
    pub(crate) fn is_mka_cut(&self) -> bool
        ensures { result ≡ is_mka_cut self.now }
    {
        matches!(self, Finding::MkaCut)
    }

    /// Whether it is a frame of key agreement that spells nothing.
    pub(crate) fn is_dropped(&self) -> bool
        ensures { result ≡ is_dropped self.now }
    {
        matches!(self, Finding::Dropped(_))
    }

    /// Whether it is an MKPDU of a CKN that no group has.
    pub(crate) fn is_unknown(&self) -> bool
        ensures { result ≡ is_unknown self.now }
    {
        matches!(self, Finding::Unknown { .. })
    }

    /// Whether it is an MKPDU that is wrong.
    pub(crate) fn is_wrong_mkpdu(&self) -> bool
        ensures { result ≡ is_wrong_mkpdu self.now }
    {
        matches!(self, Finding::WrongMkpdu { .. })
    }

    /// Whether it is an MKPDU that is right.
    pub(crate) fn is_right_mkpdu(&self) -> bool
        ensures { result ≡ is_right_mkpdu self.now }
    {
        matches!(self, Finding::RightMkpdu { .. })
    }

    /// Whether nothing is said of it for this reason.
    pub(crate) fn is_for(&self, reason: Reason) -> bool
        ensures { result ≡ is_for reason self.now }
    {
        match self {
            Finding::Undecided(why) => *why == reason,
            _ => false,
        }
    }

    /// Whether it can't be judged for this reason.
    pub(crate) fn is_because(&self, reason: Malformed) -> bool
        ensures { result ≡ is_because reason self.now }
    {
        match self {
            Finding::Malformed(why) => *why == reason,
            _ => false,
        }
    }

    /// Whether its SecTAG is refused for this reason.
    pub(crate) fn is_refused(&self, refusal: TagRefusal) -> bool
        ensures { result ≡ is_because (Refused refusal) self.now }
    {
        self.is_because(Malformed::Refused(refusal))
    }

    /// Whether it distributes a key, right or not.
    pub(crate) fn distributes(&self) -> bool
        ensures { result ≡ distributes self.now }
    {
        match self {
            Finding::Unknown { gives } | Finding::WrongMkpdu { gives } => *gives,
            Finding::RightMkpdu { handed, .. } => handed.is_some(),
            _ => false,
        }
    }

    /// Whether it is right and gives a SAK.
    pub(crate) fn gives_sak(&self) -> bool
        ensures { result ≡ gives_sak self.now }
    {
        matches!(
            self,
            Finding::RightMkpdu {
                handed: Some(Handed::Key { .. }),
                ..
            }
        )
    }
}
