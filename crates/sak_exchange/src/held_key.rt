//! Keys that a station installs, and holds.

use aes_block::Secret;
use lan_base::{AssociationNumber, KeyId};

/// A secure association key as it was installed (IEEE Std 802.1X, clause 9).
#[derive(Clone, Copy, PartialEq, Eq)]
pub struct Key {
    pub id: KeyId,
    /// The association number, under which the key's frames are found.
    pub an: AssociationNumber,
    pub sak: Secret,
    /// Whether frames under the key are encrypted.
    pub conf: bool,
    /// The count of installs at this station, over all its lives, up to and with this key's.
    pub epoch: u32,
}

/// A key that a station holds.
#[derive(Clone, Copy, PartialEq, Eq)]
pub struct HeldKey {
    pub key: Key,
    /// Whether the station has begun to transmit under it.
    pub begun: bool,
}
