//! Laws of the receive slots.

ghost use Rattle.std.specs.Prelude.{◌≡◌, ◌≤◌, ◌⊎◌, ◌∷◌, ◌++◌, List, ℕ, Ok};
ghost use Rattle.lan_base.specs.declared.address.Sci.{Sci};
ghost use Rattle.lan_base.specs.declared.association_number.AssociationNumber.{AssociationNumber};
ghost use Rattle.gcm_frames.specs.declared.tag.Tag.{Tag};
ghost use Rattle.gcm_frames.specs.Tags.{tag_fields};
ghost use Rattle.rx_slots.specs.declared.arrival.Arrival.TheVariants.{Accepted, Late};
ghost use Rattle.rx_slots.specs.Histories.{Receiving, IsQuiet, heard};
ghost use Rattle.rx_slots.specs.Numbers.{Taken, answer, lowest, lowest_for, next_number};

/// Without a window a frame that was accepted is late ever after, as long as its key stands:
/// nothing is accepted twice, the last packet number included.
pub fn law_nothing_is_accepted_twice()
    ensures { (own : Sci) (h between : List Receiving) (frame body : List ℕ) (tag : Tag) (pn : ℕ)
        → tag_fields frame ≡ Ok tag → IsQuiet tag.an between
        → answer own 0 h frame ≡ Accepted pn body
        → (next : ℕ) × (answer own 0 (between ++ heard frame ∷ h) frame ≡ Late next) }
{}

/// The lowest acceptable packet number is no less than that of any sender.
pub fn law_lowest_is_no_less_than_a_senders()
    ensures { (window : ℕ) (an : AssociationNumber) (past : List Taken) (sci : Sci)
        → lowest_for window (next_number past an sci) ≤ lowest window past an }
{}

/// It is that of some sender, or 1.
pub fn law_lowest_is_a_senders()
    ensures { (window : ℕ) (an : AssociationNumber) (past : List Taken)
        → (lowest window past an ≡ 1) ⊎ ((sci : Sci)
        × (lowest window past an ≡ lowest_for window (next_number past an sci))) }
{}
