//! What an event shows.

use aes_block::Secret;
use lan_base::{AssociationNumber, KeyId, Mi, Octets};
use mka_station::Verdict;
use rx_slots::Arrival;
use sak_exchange::{Cause, Why};
use std::alloc::{AllocError, Global};
use std::marker::Model;

/// Why a station got no packet number.
#[derive(Clone, Copy, PartialEq, Eq)]
pub enum Lack {
    /// No key transmits.
    NoKey,
    /// The transmitting key, of this epoch, has no packet number left.
    Exhausted { epoch: u32 },
}

/// One line of the transcript. `station` is the station's place.
#[derive(Drop)]
pub enum Fact {
    /// A life of the station begins, with this member identifier.
    Life {
        station: u8,
        mi: Mi,
    },
    /// The station's clock, in ticks of this life, now stands at `at`.
    Ticked {
        station: u8,
        at: u32,
        next: u64,
    },
    /// The key server that the station elects from now on.
    Server {
        station: u8,
        mi: Option<Mi>,
    },
    /// A key is held no more: no server is elected, the life ended, or another key was installed.
    Dropped {
        station: u8,
        id: KeyId,
        an: AssociationNumber,
    },
    /// The old key is held no more, the retire time after the latest one began.
    Retired {
        station: u8,
        id: KeyId,
        an: AssociationNumber,
    },
    /// The latest key begins to transmit.
    Began {
        station: u8,
        id: KeyId,
        an: AssociationNumber,
        epoch: u32,
        cause: Cause,
    },
    /// A key is the latest one from now on.
    Installed {
        station: u8,
        id: KeyId,
        an: AssociationNumber,
        epoch: u32,
        sak: Secret,
    },
    /// A key that was given is not taken.
    Untaken {
        station: u8,
        id: KeyId,
        why: Why,
    },
    /// Frame `number`, from 1, was put on the air: an MKA frame, or a protected one where `sec`.
    Framed {
        number: u32,
        station: u8,
        sec: bool,
        octets: Octets,
    },
    /// What became of a frame that is no protected one; `frame` is 0 for foreign octets.
    HeardMka {
        frame: u32,
        station: u8,
        verdict: Verdict,
    },
    /// The station claimed a packet number under a key.
    Claimed {
        station: u8,
        an: AssociationNumber,
        epoch: u32,
        pn: u32,
    },
    /// The station got none.
    Unclaimed {
        station: u8,
        why: Lack,
    },
    /// The answer to a protected frame; `frame` is 0 for foreign octets.
    Arrived {
        frame: u32,
        station: u8,
        arrival: Arrival,
    },
}

impl Fact {
    ghost use Rattle.std.specs.Prelude.{◌≡◌};
    ghost use Rattle.lan_core.specs.TypedFacts.{place, at_place};

    /// The place of the station that the fact speaks of.
    pub fn place(&self) -> u8
        ensures { result ≡ place self.now }
    {
        match self {
            Fact::Life { station, .. }
            | Fact::Ticked { station, .. }
            | Fact::Server { station, .. }
            | Fact::Dropped { station, .. }
            | Fact::Retired { station, .. }
            | Fact::Began { station, .. }
            | Fact::Installed { station, .. }
            | Fact::Untaken { station, .. }
            | Fact::Framed { station, .. }
            | Fact::HeardMka { station, .. }
            | Fact::Claimed { station, .. }
            | Fact::Unclaimed { station, .. }
            | Fact::Arrived { station, .. } => *station,
        }
    }

    /// The station that the fact speaks of is the one at this place from now on.
    pub fn move_to(&mut self, to: u8)
        ensures { self.new ≡ at_place to self.old }
    {
        match self {
            Fact::Life { station, .. } => *station = to,
            Fact::Ticked { station, .. } => *station = to,
            Fact::Server { station, .. } => *station = to,
            Fact::Dropped { station, .. } => *station = to,
            Fact::Retired { station, .. } => *station = to,
            Fact::Began { station, .. } => *station = to,
            Fact::Installed { station, .. } => *station = to,
            Fact::Untaken { station, .. } => *station = to,
            Fact::Framed { station, .. } => *station = to,
            Fact::HeardMka { station, .. } => *station = to,
            Fact::Claimed { station, .. } => *station = to,
            Fact::Unclaimed { station, .. } => *station = to,
            Fact::Arrived { station, .. } => *station = to,
        }
    }
}

/// The facts of one event, in their order. Contracts see it as the list.
#[derive(Drop)]
pub struct Facts {
    facts: Vec<Fact>,
}

impl Model for Facts {
    ghost use Rattle.std.specs.Prelude.{List};
    ghost use Rattle.lan_core.specs.declared.fact.Fact.{Fact};

    ghost Value = { List Fact };

    ghost view = { λ f. f.facts.items };
}

impl Facts {
    ghost use Rattle.std.specs.Prelude.{◌≡◌, ◌++◌, ◌∷◌, [], IfOk, OnOk, OnErr};

    /// No fact, which takes no memory.
    pub fn new(alloc: Global) -> Self
        ensures { result ≡ [] }
    {
        Facts {
            facts: Vec::new(alloc),
        }
    }

    /// No fact, with memory for so many.
    pub(crate) fn with_capacity(alloc: Global, facts: usize) -> Result<Self, AllocError>
        ensures { IfOk result (λ facts. facts ≡ []) }
    {
        let facts = Vec::with_capacity(alloc, facts)?;
        Ok(Facts { facts })
    }

    /// One fact, in memory for just that one.
    pub fn one(alloc: Global, fact: Fact) -> Result<Self, AllocError>
        ensures { IfOk result (λ facts. facts ≡ fact ∷ []) }
    {
        let mut facts = Facts::with_capacity(alloc, 1)?;
        facts.push(fact)?;
        Ok(facts)
    }

    /// The facts.
    pub fn as_slice(&self) -> &[Fact]
        ensures { result.now ≡ self.now }
    {
        self.facts.as_slice()
    }

    /// Appends a fact. An `Err` leaves the list as it was.
    pub fn push(&mut self, fact: Fact) -> Result<(), AllocError>
        ensures ok { OnOk result (self.new ≡ self.old ++ fact ∷ []) }
        ensures err { OnErr result (self.new ≡ self.old) }
    {
        self.facts.push(fact)?;
        Ok(())
    }
}
