//! Laws of histories of keys.

ghost use Rattle.std.specs.Prelude.{◌≡◌, ◌≤◌, ◌++◌, ℕ, List, Some};
ghost use Rattle.aes_block.specs.declared.secret.Secret.{Secret};
ghost use Rattle.least_pairs.specs.Pairs.{IsJudged};
ghost use Rattle.known_keys.specs.History.{Entry, keys};
ghost use Rattle.known_keys.specs.OneKey.{BreaksOneKey, given};
ghost use Rattle.known_keys.specs.Fronts.{IsBehind, IsWithin};

/// A front of a history knows a front of the keys: a key keeps its number.
pub fn law_a_front_knows_a_front()
    ensures { (later earlier : List Entry)
        → (more : List Secret) × (keys (later ++ earlier) ≡ keys earlier ++ more) }
{}

/// What is broken in a front of the packets stays broken, by the same pair.
pub fn law_a_front_stays_broken()
    ensures { (later earlier : List Entry) (end : ℕ) (pair : ℕ × ℕ)
        → IsWithin end earlier → IsBehind end later
        → IsJudged (BreaksOneKey earlier) (Some pair)
        → IsJudged (BreaksOneKey (later ++ earlier)) (Some pair) }
{}

/// What a packet gives is not hidden by packets behind it.
pub fn law_a_later_packet_hides_nothing()
    ensures { (later earlier : List Entry) (end packet : ℕ) → IsBehind end later → packet ≤ end
        → given (later ++ earlier) packet ≡ given earlier packet }
{}
