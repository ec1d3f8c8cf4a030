//! The keys of a protected LAN as they become known: their numbers, which are known to a frame, why a
//! frame is undecided, and what broke of one key under each identifier.
#![tactic(auto)]

mod falling;
mod fault;
mod firsts;
mod gives;
mod giving;
mod givings;
mod keys;
mod known_keys;
mod laws;
mod lists;
mod misses;
mod named;
mod reason;
mod said;
mod sak_numbers;
mod sender;
mod times;

pub use fault::KeyError;
pub use gives::Gives;
pub use giving::{Giving, NoSak};
pub use known_keys::KnownKeys;
pub use laws::{
    law_a_front_knows_a_front, law_a_front_stays_broken, law_a_later_packet_hides_nothing,
};
pub use named::Named;
pub use reason::Reason;
pub use sender::Sender;
