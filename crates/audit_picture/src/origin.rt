//! Where keys are from.

use audit_facts::AuditView;
use key_ring::HandKey;
use lan_base::AssociationNumber;
use mark_notes::Giving;
use std::alloc::{AllocError, Global};
use std::collections::BTreeMap;

/// Where a key is from.
#[derive(Clone, Copy)]
pub enum Origin {
    /// The first line of the key text that sets it.
    Hand(HandKey),
    /// The first packet that gave it.
    Given(Giving),
}

impl Origin {
    /// The association number with which it was set or given first.
    pub fn an(&self) -> AssociationNumber {
        match self {
            Origin::Hand(key) => key.an,
            Origin::Given(giving) => giving.an,
        }
    }

    /// The packet from which on it was known: the first one, where it was set by hand.
    pub fn packet(&self) -> u32 {
        match self {
            Origin::Hand(_) => 1,
            Origin::Given(giving) => giving.packet,
        }
    }
}

/// The keys that are set by hand, each with its first line.
#[derive(Drop)]
pub struct Hand {
    keys: BTreeMap<u32, HandKey>,
}

impl Hand {
    /// Those of a view.
    pub fn of(alloc: Global, view: &AuditView) -> Result<Hand, AllocError> {
        let mut keys = BTreeMap::new(alloc);
        for each in &view.hand {
            if !keys.contains_key(&each.0) {
                keys.insert(each.0, each.1)?;
            }
        }
        Ok(Hand { keys })
    }

    /// Where a key of a view is from.
    pub fn origin(&self, view: &AuditView, key: u32) -> Option<Origin> {
        match self.keys.get(&key) {
            Some(hand) => Some(Origin::Hand(*hand)),
            None => Some(Origin::Given(view.facts.giving(key)?)),
        }
    }
}
