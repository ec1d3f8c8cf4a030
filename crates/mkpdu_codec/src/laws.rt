//! Laws of the spelling of frames.

ghost use Rattle.std.specs.Prelude.{◌≡◌, ◌↔◌, ◌<◌, ◌++◌, ◌⊎◌, ◌+◌, ℕ, List, length, take, Some, None, Ok, Err, All};
ghost use Rattle.mkpdu_codec.specs.declared.announcement.Announcement.{Announcement};
ghost use Rattle.mkpdu_codec.specs.declared.refusal.Refusal.{Refusal};
ghost use Rattle.mkpdu_codec.specs.declared.spelled.Spelled.{Spelled};
ghost use Rattle.mkpdu_codec.specs.Frames.{Spells, IsOfItsTypes};
ghost use Rattle.mkpdu_codec.specs.Reading.{reading};
ghost use Rattle.mkpdu_codec.specs.Refusals.{refused};
ghost use Rattle.mkpdu_codec.specs.Written.{written, IsWritable};

/// Reading refuses exactly the first refusal of a frame.
pub fn law_reading_refuses()
    ensures { (frame : List ℕ) (e : Refusal) → (refused frame ≡ Some e) ↔ (reading frame ≡ Err e) }
{}

/// A frame that spells an announcement is read as that.
pub fn law_spelled_is_read()
    ensures { (frame check : List ℕ) (a : Announcement) (covered : ℕ) → Spells frame a covered check
        → reading frame ≡ Ok (record { announcement = a; covered = covered; check = check }) }
{}

/// A frame spells one announcement at most.
pub fn law_one_spelling()
    ensures { (frame : List ℕ) (a b : Announcement) (m n : ℕ) (c d : List ℕ)
        → Spells frame a m c → Spells frame b n d → (a ≡ b) × (m ≡ n) × (c ≡ d) }
{}

/// A frame that spells an announcement has no refusal.
pub fn law_never_both()
    ensures { (frame : List ℕ) (a : Announcement) (covered : ℕ) (check : List ℕ)
        → Spells frame a covered check → refused frame ≡ None }
{}

/// The covered octets alone decide what a frame spells, and how many they are.
pub fn law_covered_octets_decide()
    ensures { (frame other : List ℕ) (a b : Announcement) (m n : ℕ) (c d : List ℕ)
        → Spells frame a m c → Spells other b n d → take m frame ≡ take n other
        → (a ≡ b) × (m ≡ n) }
{}

/// What stands behind the check value is ignored.
#[tactic(auto, using(crate::proofs::Unique::behind_ignored))]
pub fn law_octets_behind_are_ignored()
    ensures { (frame behind check : List ℕ) (a : Announcement) (covered : ℕ)
        → Spells frame a covered check → Spells
        (take (covered + 16) frame ++ behind) a covered check }
{}

/// Each frame spells an announcement, or has a first refusal.
pub fn law_spelled_or_refused()
    ensures { (frame : List ℕ) → All (λ o. o < 256) frame
        → ((a : Announcement) × ((covered : ℕ) × ((check : List ℕ) × Spells frame a covered check)))
        ⊎ ((e : Refusal) × (refused frame ≡ Some e)) }
{}

/// What is written of an announcement, followed by a check value, spells that announcement.
#[tactic(auto, using(crate::proofs::WrittenSpelled::written_spells))]
pub fn law_written_is_spelled()
    ensures { (a : Announcement) (check : List ℕ) → IsWritable a → IsOfItsTypes a
        → length check ≡ 16
        → Spells (written a ++ check) a (length (written a)) check }
{}

/// What reading a frame gives, the frame spells.
pub fn law_read_is_spelled()
    ensures { (frame : List ℕ) (s : Spelled) → All (λ o. o < 256) frame
        → reading frame ≡ Ok s → Spells frame s.announcement s.covered s.check }
{}
