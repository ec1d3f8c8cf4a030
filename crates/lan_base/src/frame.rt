//! Frames of users, before and after they are protected.

use crate::address::Mac;
use crate::association_number::AssociationNumber;
use crate::octets::Octets;

/// Plain user data for one protected frame: where it goes, and its EtherType and payload.
#[derive(Debug, Drop)]
pub struct UserFrame {
    pub destination: Mac,
    pub body: Octets,
}

/// A frame that a worker protected: the station's place, the association number, epoch and packet
/// number that it was protected under, and the octets of the whole frame.
#[derive(Debug, Drop)]
pub struct Protected {
    pub station: u8,
    pub an: AssociationNumber,
    pub epoch: u32,
    pub pn: u32,
    pub octets: Octets,
}
