//! What holds of the SAKs that were noted.

ghost use Rattle.std.specs.Prelude.{List, ◌∷◌, ◌++◌, IsTrue};
ghost use Rattle.aes_block.specs.declared.secret.Secret.{Secret};
ghost use Rattle.aes_block.specs.Secrets.{same_secret};
ghost use Rattle.known_saks.specs.Known.{is_known};

/// A SAK that was noted is known, whatever is noted after it.
pub fn law_noted_is_known()
    ensures { (later earlier : List Secret) (sak again : Secret) → IsTrue (same_secret sak again)
        → IsTrue (is_known (later ++ sak ∷ earlier) again) }
{}
