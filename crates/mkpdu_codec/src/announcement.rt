//! What an MKA frame says.

use crate::given::Given;
use crate::high_halves::HighHalves;
use crate::key_use::Uses;
use crate::peer::Peers;
use lan_base::{Mac, Mi, Octets, Sci};

/// What one MKA frame says (IEEE Std 802.1X, clause 11): who announces, with which message number,
/// whom it hears, which keys it uses, and the key that it gives if it is the key server.
#[derive(Debug, Drop, PartialEq)]
pub struct Announcement {
    /// The source address of the frame.
    pub source: Mac,
    /// The key server priority: the least one serves, 255 never does.
    pub priority: u8,
    /// The key server flag.
    pub server: bool,
    pub sci: Sci,
    pub mi: Mi,
    /// The message number, from 1 in each life.
    pub mn: u32,
    /// The name of the connectivity association key, 1 to 32 octets.
    pub ckn: Octets,
    pub live: Peers,
    pub potential: Peers,
    pub uses: Option<Uses>,
    pub given: Option<Given>,
    pub highs: Option<HighHalves>,
}
