//! Laws of the text.

ghost use Rattle.std.specs.Prelude.{◌≡◌, ◌==◌, ℕ, List, ◌∷◌, IsTrue, false};
ghost use Rattle.std.specs.List.{All, flat_map};
ghost use Rattle.lan_base.specs.Name.{IsName};
ghost use Rattle.lan_core.specs.declared.fact.Fact.{Fact};
ghost use Rattle.lan_base.specs.Differing.{AllDiffer};
ghost use Rattle.transcript.specs.Naming.{Reads};
ghost use Rattle.transcript.specs.Rendering.{AreNames, IsFact, line, transcript};
ghost use Rattle.transcript.specs.Cut.{cut, is_first, IsEvent};

/// Different lists of facts have different texts, under names that differ.
pub fn law_texts_differ()
    ensures { (names : List (List ℕ)) (these those : List Fact) → All IsName names → AllDiffer names
        → All (IsFact names) these → All (IsFact names) those
        → transcript names these ≡ transcript names those → these ≡ those }
{}

/// No octet of the line of a fact ends a line: none is a line feed, and none a carriage return.
pub fn law_no_fact_ends_a_line()
    ensures feeds_never { (names : List (List ℕ)) (fact : Fact) → All IsName names
        → IsFact names fact → All (λ octet. (octet == 10) ≡ false) (line names fact) }
    ensures returns_never { (names : List (List ℕ)) (fact : Fact) → All IsName names
        → IsFact names fact → All (λ octet. (octet == 13) ≡ false) (line names fact) }
{}

/// Under names of stations a line is that of one fact at most, and the names after it are those of
/// stations.
pub fn law_a_line_is_one_fact()
    ensures one { (names : List (List ℕ)) (line : List ℕ) (after then : List (List ℕ))
        (this that : Fact) → AreNames names → Reads names line after this
        → Reads names line then that → (after ≡ then) × (this ≡ that) }
    ensures named { (names : List (List ℕ)) (line : List ℕ) (after : List (List ℕ)) (fact : Fact)
        → AreNames names → Reads names line after fact → AreNames after }
{}

/// The facts of events tell where each event ends.
pub fn law_cut()
    ensures whole { (facts : List Fact) → flat_map (λ event. event) (cut facts) ≡ facts }
    ensures events { (fact : Fact) (facts : List Fact) → IsTrue (is_first fact)
        → All IsEvent (cut (fact ∷ facts)) }
    ensures again { (events : List (List Fact)) → All IsEvent events
        → cut (flat_map (λ event. event) events) ≡ events }
{}
