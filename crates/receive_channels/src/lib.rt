//! The receive channels of a data path: which are made, which keys come into them, and which go.
//!
//! A real data path drops the frames of a sender that it has no channel for. So there is a channel for
//! the SCI of each live or potential member, at most 128, and each held key comes into it once. It goes
//! when nobody has the SCI and none of its keys is held: made anew under a key that is still held, it
//! would begin at the first packet number again, and take old frames a second time.
//!
//! Read first `Channels`, whose `step` takes who is there and which keys are held, and answers what is
//! told; in `specs/`, `Channels`.
#![tactic(auto)]

mod changes;
mod channel;
mod channels;
mod laws;
mod next;
mod still;

pub use changes::{ChannelChanges, Opened, Receive};
pub use channel::ChannelKey;
pub use channels::Channels;
pub use laws::{
    law_channels_are_few, law_made_in_a_channel, law_most, law_received_once, law_received_stands,
    law_still_step_tells_nothing,
};
pub use next::MOST;
