//! Laws of right MKPDUs.

ghost use Rattle.std.specs.Prelude.{◌≡◌, ◌∷◌, ◌++◌, ℕ, List};
ghost use Rattle.member_notes.specs.declared.mkpdu.RightMkpdu.{RightMkpdu};
ghost use Rattle.member_notes.specs.declared.novelty.MkpduNovelty.TheVariants.{New, Again};
ghost use Rattle.member_notes.specs.Mkpdus.{novelty_in};

/// A new MKPDU once more, directly behind itself, comes again, and is told of the packet of the first
/// one; so does one that comes again, of the packet that it was told of.
pub fn law_a_repetition_comes_again()
    ensures new { (h : List RightMkpdu) (e : RightMkpdu) (packet : ℕ) → novelty_in h e ≡ New
        → novelty_in (e ∷ h) (record e { packet = packet }) ≡ Again e.packet }
    ensures again { (h : List RightMkpdu) (e : RightMkpdu) (packet first : ℕ)
        → novelty_in h e ≡ Again first
        → novelty_in (e ∷ h) (record e { packet = packet }) ≡ Again first }
{}

/// An MKPDU once more, directly behind itself, changes nothing of what others are that come behind it.
pub fn law_a_repetition_changes_no_other()
    ensures { (later h : List RightMkpdu) (e other : RightMkpdu) (packet : ℕ)
        → novelty_in (later ++ record e { packet = packet } ∷ e ∷ h) other
        ≡ novelty_in (later ++ e ∷ h) other }
{}
