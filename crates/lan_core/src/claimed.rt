//! What a claim of a packet number comes to at its station.

use lan_base::Octets;
use sak_exchange::HeldKey;

/// The key that transmits at the station of a claim, and the user frame that is protected under
/// it, if the claim got a packet number.
#[derive(Drop)]
pub struct Claimed {
    pub key: Option<HeldKey>,
    pub octets: Option<Octets>,
}
