//! What every crate of the group speaks of: addresses, identifiers, lists of octets, frames, the
//! timers and the ranges of the profile, and the traits of the outside: where octets come from,
//! where they go, and where drawn values come from.
#![tactic(auto)]

mod address;
mod association_number;
mod blocks;
mod chacha_draws;
mod draws;
mod frame;
mod instants;
mod key_id;
mod list_draws;
mod memory;
mod name;
mod octets;
mod ranges;
mod room;
mod sink;
mod source;
mod steady;
mod stream;
mod suite;
mod timers;

pub use address::{Mac, Mi, Sci};
pub use association_number::AssociationNumber;
pub use blocks::Blocks;
pub use chacha_draws::ChaChaDraws;
pub use draws::{CountDraws, Draws};
pub use frame::{Protected, UserFrame};
pub use instants::{TICK_NANOS, is_recent, law_tick_nanos};
pub use key_id::KeyId;
pub use list_draws::ListDraws;
pub use memory::{MemorySink, MemorySource};
pub use name::Name;
pub use octets::Octets;
pub use ranges::{
    CKN_MAX, FRAME_MAX, FRAMES_MAX, INPUT_MAX, TICKS_MAX, USER_DATA_MAX, USER_DATA_MIN, is_ckn,
    is_user_data, law_ranges,
};
pub use room::put;
pub use sink::{Sink, Unwritten, write_all};
pub use source::{Failed, ReadEnd, Source, read_all};
pub use steady::{DropSink, SteadySink, SteadySource};
pub use stream::{KnownRead, KnownWrite, StdSink, StdSource};
pub use suite::Suite;
pub use timers::{HELLO_TIME, LIFE_TIME, RETIRE_TIME, law_timers};
