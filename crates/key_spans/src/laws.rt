//! What holds of the spans of every list of facts, and which keys those of a run tell of.

ghost use Rattle.std.specs.Prelude.{ℕ, ◌≡◌, ◌++◌, ◌∷◌, List};
ghost use Rattle.lan_base.specs.AssociationNumbers.{number_of};
ghost use Rattle.lan_base.specs.declared.association_number.AssociationNumber.{AssociationNumber};
ghost use Rattle.lan_base.specs.declared.frame.UserFrame.{UserFrame};
ghost use Rattle.lan_core.specs.declared.fact.Fact.{Fact};
ghost use Rattle.lan_core.specs.declared.settings.Settings.{Settings};
ghost use Rattle.lan_core.specs.Run.{Run};
ghost use Rattle.lan_core.specs.Legal.{IsLegal, IsStepped};
ghost use Rattle.key_spans.specs.Held.{TellOf};
ghost use Rattle.key_spans.specs.declared.span.Span.{Span};
ghost use Rattle.key_spans.specs.Spans.{spans};
ghost use Rattle.key_spans.specs.Times.{HasEndedAt, Transmits};

/// Of two keys that a station held under one number, the earlier was held no more when the later was
/// installed: spans under one number do not overlap.
pub fn law_spans_do_not_overlap()
    ensures { (s : ℕ) (an : AssociationNumber) (facts : List Fact)
        (before between behind : List Span) (earlier later : Span)
        → spans s an facts ≡ before ++ earlier ∷ (between ++ later ∷ behind)
        → HasEndedAt later.installed earlier }
{}

/// At any moment, which is after any facts, the keys of a station that transmit are all under one
/// number. Under one number only the last key can be held, so that at most one transmits.
pub fn law_one_key_transmits()
    ensures { (s : ℕ) (one other : AssociationNumber) (facts : List Fact)
        (before behind front back : List Span) (a b : Span)
        → spans s one facts ≡ before ++ a ∷ behind → spans s other facts ≡ front ++ b ∷ back
        → Transmits a → Transmits b → number_of one ≡ number_of other }
{}

/// The spans of a run's facts are those of the keys that its stations hold: after each event a span is
/// held exactly where its station holds that key under that number, and transmits exactly where that
/// key does.
pub fn law_spans_tell_of_held_keys()
    ensures legal { (settings : Settings) (users : List UserFrame) (r : Run)
        → IsLegal settings users r → TellOf settings r }
    ensures stepped { (settings : Settings) (users : List UserFrame) (r : Run)
        → IsStepped settings users r → TellOf settings r }
{}
