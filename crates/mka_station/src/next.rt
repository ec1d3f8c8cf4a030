//! What an event comes to, before the station takes it over.

use crate::reaction::Reaction;
use crate::shown::Shown;
use lan_base::Mi;
use sak_exchange::KeyState;

/// What a tick comes to: the keys and the server behind it, and what is shown where an announcement
/// is sent.
#[derive(Drop)]
pub struct Ticked {
    pub keys: KeyState,
    pub server: Option<Mi>,
    pub shown: Option<Shown>,
    pub reaction: Reaction,
}

/// What a hearing comes to: the keys and the server behind it, and whether a key was installed.
#[derive(Drop)]
pub struct Hearing {
    pub keys: KeyState,
    pub server: Option<Mi>,
    pub installs: bool,
    pub reaction: Reaction,
}
