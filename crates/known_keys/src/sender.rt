//! Whose frames a key protects that was set by hand.

use lan_base::Sci;

/// Whose frames a key protects that was set by hand.
#[derive(Clone, Copy, Debug, PartialEq, Eq)]
pub enum Sender {
    /// Those of any sender.
    Any,
    /// Those of this one.
    One(Sci),
}
