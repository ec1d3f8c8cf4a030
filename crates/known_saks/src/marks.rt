//! The marks of the SAKs that were noted.

ghost use Rattle.std.specs.Prelude.{◌≡◌, List, [], ◌∷◌, OnOk, OnErr};
ghost use Rattle.aes_block.specs.declared.secret.Secret.{Secret};
ghost use Rattle.known_saks.specs.Known.{is_known, mark, StandsFor};

use aes_block::{Key, Secret};
use aes_cmac::cmac;
use std::alloc::{AllocError, Global};
use std::collections::BTreeSet;
use std::marker::Model;

/// The SAKs that were noted, by their marks. Contracts see the marks, and tie them by `StandsFor` to
/// the SAKs, the newest first.
#[derive(Drop)]
pub struct KnownSaks {
    marks: BTreeSet<[u8; 16]>,
}

impl Model for KnownSaks {
    ghost use Rattle.std.specs.Prelude.{List, ℕ};

    ghost Value = { List (List ℕ) };

    ghost view = { λ known. known.marks.keys };
}

impl KnownSaks {
    /// No SAK was noted. No memory is taken.
    pub fn new(alloc: Global) -> KnownSaks
        ensures { StandsFor result [] }
    {
        KnownSaks {
            marks: BTreeSet::new(alloc),
        }
    }

    /// Whether one that was noted has the mark of this SAK.
    pub fn has(&self, sak: &Secret) -> bool
        ensures { (noted : List Secret) → StandsFor self.now noted → result ≡ is_known noted sak.now }
    {
        self.marks.contains(&mark_of(sak))
    }

    /// This SAK is noted. An error leaves all as it was.
    pub fn note(&mut self, sak: &Secret) -> Result<(), AllocError>
        ensures noted { (noted : List Secret) → StandsFor self.old noted
            → OnOk result (StandsFor self.new (sak.now ∷ noted)) }
        ensures kept { OnErr result (self.new ≡ self.old) }
    {
        self.marks.insert(mark_of(sak))?;
        Ok(())
    }
}

/// The mark of a SAK.
#[tactic(auto, unfolding(crate::specs::Known::mark))]
fn mark_of(sak: &Secret) -> [u8; 16]
    ensures { result ≡ mark sak.now }
{
    cmac(&Key::of(sak), &[])
}
