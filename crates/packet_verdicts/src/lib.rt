//! What the packets of a capture of a protected LAN are under its keys: frames of key agreement of its
//! groups, and protected frames with the newest key under which each is right.
#![tactic(auto)]

mod batch;
mod frame;
mod given;
mod groups;
mod judging;
mod kind;
mod laws;
mod mka;
mod sealed;
mod sec;

pub use batch::{Trial, run_trials};
pub use frame::uncover;
pub use given::{Gift, NoSak, Shown, ShownKeys, given_key, shown_keys};
pub use groups::Groups;
pub use judging::{Judged, judge};
pub use kind::{Kind, Malformed, Mka, Sec};
pub use laws::{
    law_check_is_behind, law_kind_fits, law_right_is_sealed, law_tags_before_the_frame,
};
pub use sealed::newest_right;
