//! What is told of a key that a packet gives.

/// What is told of a key that a packet gives.
#[derive(Clone, Copy, Debug, PartialEq, Eq)]
pub struct Gives {
    /// The number of the key.
    pub key: u32,
    /// Whether no packet of its group gave the same key under the same identifier, association number
    /// and offset before.
    pub is_new: bool,
    /// Whether no packet of any group gave it under the same identifier and association number before.
    pub is_new_naming: bool,
    /// The packet that gave the identifier first, where that gave it with another SAK or association
    /// number.
    pub other_name: Option<u32>,
    /// The packet that gave the SAK first, where that gave it under another identifier.
    pub other_id: Option<u32>,
}
