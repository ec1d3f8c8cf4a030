//! What packets said of keys before.

ghost use Rattle.std.specs.Prelude.{◌≡◌, [], IfOk};
ghost use Rattle.known_keys.specs.Said.{statement_of};
ghost use Rattle.known_keys.specs.inside.Sets.{IsPut};

use lan_base::{AssociationNumber, KeyId, Mi};
use mkpdu_codec::ConfidentialityOffset;
use std::alloc::{AllocError, Global};
use std::collections::BTreeSet;
use std::marker::Model;

/// Whether a statement, and what it says of its identifier, are said for the first time.
#[derive(Clone, Copy, Debug, PartialEq, Eq)]
pub struct Fresh {
    pub statement: bool,
    pub naming: bool,
}

/// What was said: in each group, and in whatever group. Contracts see the entries.
#[derive(Drop)]
pub struct Said {
    statements: BTreeSet<(u32, (((Mi, u32), (u8, u32)), u8))>,
    namings: BTreeSet<((Mi, u32), (u8, u32))>,
}

impl Model for Said {
    ghost use Rattle.known_keys.specs.Maps.{Sets};

    ghost Value = { Sets };

    ghost view = { λ s. record { statements = s.statements.keys; namings = s.namings.keys } };
}

impl Said {
    /// Nothing was said. No memory is taken.
    pub fn new(alloc: Global) -> Said
        ensures { result ≡ record { statements = []; namings = [] } }
    {
        Said {
            statements: BTreeSet::new(alloc),
            namings: BTreeSet::new(alloc),
        }
    }

    /// A statement is said.
    pub fn put(
        &mut self,
        statement: (u32, (((Mi, u32), (u8, u32)), u8)),
    ) -> Result<Fresh, AllocError>
        ensures { IfOk result (λ fresh. IsPut statement self.old self.new fresh) }
    {
        let is_new_naming = self.namings.insert(statement.1.0)?;
        let is_new = self.statements.insert(statement)?;
        Ok(Fresh {
            statement: is_new,
            naming: is_new_naming,
        })
    }
}

/// What a packet of a group says that gives a key.
pub fn statement_of(
    group: u32,
    id: KeyId,
    an: AssociationNumber,
    offset: ConfidentialityOffset,
    key: u32,
) -> (u32, (((Mi, u32), (u8, u32)), u8))
    ensures { result ≡ statement_of group id an offset key }
{
    (
        group,
        (((id.server, id.number), (an.number(), key)), offset.bits()),
    )
}
