//! What facts tell lies in the types of their fields.

ghost use Rattle.std.specs.Prelude.{List, All};
ghost use Rattle.lan_base.specs.declared.frame.UserFrame.{UserFrame};
ghost use Rattle.lan_core.specs.declared.settings.Settings.{Settings};
ghost use Rattle.lan_core.specs.Run.{Run, facts_of};
ghost use Rattle.lan_core.specs.Legal.{IsStepped};
ghost use Rattle.lan_core.specs.TypedFacts.{IsTypedFact};

use mkpdu_codec::law_reading_refuses;

/// The facts of a stepped run have their fields in their types: numbers in their ranges, octets of
/// their lengths, whatever foreign octets it heard.
pub fn law_facts_are_typed()
    ensures { (settings : Settings) (users : List UserFrame) (r : Run) → IsStepped settings users r
        → All IsTypedFact (facts_of r) }
{
    law_reading_refuses();
}
