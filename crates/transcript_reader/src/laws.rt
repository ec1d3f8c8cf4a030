//! What holds of the lines of every transcript.

ghost use Rattle.std.specs.Prelude.{◌≡◌, List, ℕ, Some};
ghost use Rattle.lan_core.specs.declared.fact.Fact.{Fact};
ghost use Rattle.transcript.specs.Naming.{Reads};
ghost use Rattle.transcript_reader.specs.declared.form.Form.TheVariants.{OneGroup};
ghost use Rattle.transcript_reader.specs.Facts.{AreNamed, IsOfOneGroup, Known, Tells, in_one_group};

use transcript::law_a_line_is_one_fact;

/// Behind others a line tells one fact at most, and then one thing is known, with names of stations.
pub fn law_a_line_tells_one_fact()
    ensures one { (known : Known) (line : List ℕ) (after then : Known) (this that : Fact)
        → AreNamed known.names → Tells known line after this → Tells known line then that
        → (after ≡ then) × (this ≡ that) }
    ensures named { (known : Known) (line : List ℕ) (then : Known) (fact : Fact)
        → AreNamed known.names → Tells known line then fact → AreNamed then.names }
{
    law_a_line_is_one_fact();
}

/// A line of one group tells the fact that it reads, and behind lines of one group no other.
pub fn law_one_group_tells_what_it_reads()
    ensures tells { (known : Known) (line : List ℕ) (after : List (List ℕ)) (fact : Fact)
        → IsOfOneGroup known.form → Reads known.names.first line after fact
        → Tells known line (in_one_group after known.names.second) fact }
    ensures reads { (known : Known) (line : List ℕ) (then : Known) (fact : Fact)
        → known.form ≡ Some OneGroup → Tells known line then fact
        → Reads known.names.first line then.names.first fact }
{}
