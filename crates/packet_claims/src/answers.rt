//! What a claim answers.
use association_slots::Card;
use lan_base::AssociationNumber;

/// A packet number of an epoch that was current, the AN under which it was, and the card of the
/// epoch.
#[derive(Clone, Copy, Debug, PartialEq, Eq)]
pub struct Claim {
    pub an: AssociationNumber,
    pub epoch: u32,
    pub pn: u32,
    pub card: Card,
}

/// Why there is no claim.
#[derive(Clone, Copy, Debug, PartialEq, Eq)]
pub enum NoClaim {
    /// Nothing was present, and this epoch was the last one, 0 for none.
    NoKey { after: u32 },
    /// The epoch has no packet number left.
    Exhausted { epoch: u32 },
}
