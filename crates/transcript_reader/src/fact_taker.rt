//! Who takes the facts of a transcript.

ghost use Rattle.std.specs.Prelude.{◌≡◌, List, ℕ, Err};
ghost use Rattle.lan_core.specs.declared.fact.Fact.{Fact};
ghost use Rattle.text_lines.specs.Moments.{Moment, moment};
ghost use Rattle.transcript_reader.specs.Facts.{Known, Tells};
ghost use Rattle.transcript_reader.specs.Taking.{Courses, Rule, TakesFact};
ghost use Rattle.transcript_reader.specs.declared.take_error.TakeError.TheVariants as errors;

use crate::take_error::TakeError;
use lan_core::Fact;

/// Takes the facts of a transcript, one after the other, until it refuses one. What it writes to, its
/// outlet, is passed beside it, as to a taker of lines.
pub trait FactTaker<K> {
    /// Why a line is refused.
    type Fault: Drop;

    /// By which rule lines are taken.
    ghost rule: { Rule Self.Fault };

    /// Why a fact is refused that comes behind others.
    ghost Refuses: { List Fact → Fact → Self.Fault → Type 0 };

    /// Why a line is refused that tells no fact.
    ghost unread: { Self.Fault };

    /// What holds where facts were taken since a first moment.
    ghost courses: { Courses Self K };

    /// The outlet came from one value to another.
    ghost Grew: { K → K → Type 0 };

    /// The outlet failed on its way from one value to another.
    ghost Fails: { K → K → Type 0 };

    /// Why a line is refused that tells no fact.
    fn unread() -> Self::Fault
        ensures { result ≡ unread };

    /// Takes the next fact.
    fn fact(&mut self, fact: &Fact, outlet: &mut K) -> Result<(), TakeError<Self::Fault>>
        ensures takes { (first : Moment Self K) (facts : List Fact)
            → courses.Took first facts (moment self.old outlet.old)
            → TakesFact rule Refuses courses first facts fact.now (moment self.new outlet.new) result }
        ensures grew { Grew outlet.old outlet.new }
        ensures failed { result ≡ Err errors.Failed → Fails outlet.old outlet.new };

    /// A line that tells no fact is to be refused.
    ghost untold: { (known : Known) (facts : List Fact) (line : List ℕ)
        → ((after : Known) (fact : Fact) → Tells known line after fact → ⊥)
        → rule.Denies known facts line unread };

    /// A line whose fact is refused is to be refused.
    ghost denied: { (known after : Known) (facts : List Fact) (line : List ℕ) (fact : Fact) (why : Self.Fault)
        → Tells known line after fact → Refuses facts fact why → rule.Denies known facts line why };

    /// Where facts were taken, memory may be wanting for the next line.
    ghost breaks: { (first now : Moment Self K) (facts : List Fact) → courses.Took first facts now
        → courses.Broke first facts now };

    /// An outlet stayed as it was.
    ghost stays: { (a : K) → Grew a a };

    /// It went on twice.
    ghost further: { (a b c : K) → Grew a b → Grew b c → Grew a c };

    /// It failed later.
    ghost late: { (a b c : K) → Grew a b → Fails b c → Fails a c };
}
