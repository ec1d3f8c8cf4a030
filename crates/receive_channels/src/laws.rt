//! What holds of channels after every history of steps.

ghost use Rattle.std.specs.Prelude.{ℕ, ◌≡◌, ◌≤◌, ◌∷◌, List, IsTrue, length, map};
ghost use Rattle.std.specs.List.{Contains};
ghost use Rattle.lan_base.specs.Differing.{AllDiffer};
ghost use Rattle.receive_channels.specs.declared.changes.Receive.{Receive};
ghost use Rattle.receive_channels.specs.Channels.{Step, ChannelSet, after, has, has_channel, most_channels, IsStill, NobodyCanBePlaced};
ghost use Rattle.receive_channels.specs.Histories.{association, is_held, key_of, made, made_at, standing, AreSteady};

use crate::next::MOST;

/// The most channels are those of the definitions.
pub fn law_most()
    ensures { MOST ≡ most_channels }
{}

/// There are at most as many channels.
pub fn law_channels_are_few()
    ensures { (h : List Step) → length (standing h).channels ≤ most_channels }
{}

/// Each association that is made is of a held key, in the channel of an SCI that somebody has, and that
/// channel stands.
pub fn law_made_in_a_channel()
    ensures key { (step : Step) (h : List Step) (r : Receive) → Contains (made_at step h) r
        → Contains step.keys (key_of r) }
    ensures sci { (step : Step) (h : List Step) (r : Receive) → Contains (made_at step h) r
        → IsTrue (has step.scis r.sci) }
    ensures channel { (step : Step) (h : List Step) (r : Receive) → Contains (made_at step h) r
        → IsTrue (has_channel (standing (step ∷ h)).channels r.sci) }
{}

/// Of one key and SCI at most one association is made.
pub fn law_received_once()
    ensures { (h : List Step) → AreSteady h → AllDiffer (map association (made h)) }
{}

/// While a key is held, the channels stand in which it has associations.
pub fn law_received_stands()
    ensures { (step : Step) (h : List Step) (r : Receive) → AreSteady (step ∷ h)
        → Contains (made (step ∷ h)) r → IsTrue (is_held step.keys r.epoch)
        → IsTrue (has_channel (standing (step ∷ h)).channels r.sci) }
{}

/// The same step again, with nobody who waits for a place that is free, tells nothing and changes nothing.
pub fn law_still_step_tells_nothing()
    ensures { (step : Step) (s : ChannelSet) → AllDiffer step.scis → NobodyCanBePlaced (after step s)
        → IsStill step (after step s) }
{}
