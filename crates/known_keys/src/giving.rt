//! What a packet gives under an identifier of a key.

use aes_block::Secret;
use mkpdu_codec::ConfidentialityOffset;

/// Why a right MKPDU with a Distributed SAK (IEEE Std 802.1X, clause 11) gives no SAK.
#[derive(Clone, Copy, Debug, PartialEq, Eq)]
pub enum NoSak {
    /// The key is for another cipher suite.
    OtherSuite,
    /// The group's key does not unwrap it.
    WrongWrap,
}

/// What a right MKPDU with a Distributed SAK (IEEE Std 802.1X, clause 11) gives.
#[derive(Clone, Copy, Debug, PartialEq, Eq)]
pub enum Giving {
    /// A SAK, with its confidentiality offset.
    Key {
        offset: ConfidentialityOffset,
        sak: Secret,
    },
    /// No SAK.
    Without(NoSak),
}
