//! Identifiers of keys.

use crate::address::Mi;

/// A key identifier (IEEE Std 802.1X, clause 9): the key server's member identifier and its key
/// number.
#[derive(Clone, Copy, Debug, PartialEq, Eq)]
pub struct KeyId {
    pub server: Mi,
    pub number: u32,
}
