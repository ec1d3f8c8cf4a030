//! The work of the tests of ciphers: each is done as many times as it is asked for, so that anybody
//! can time it, or count its instructions, beside another implementation.

mod frames;
mod named;
mod round_trips;
mod work;

pub use named::{Frame, Test};
pub use round_trips::come_back;
pub use work::last_result;
