//! Laws of claims that wait, and of next packet numbers.

ghost use Rattle.std.specs.Prelude.{◌≡◌, ◌≤◌, ◌+◌, ◌==◌, ◌∷◌, [], ℕ, List, length};
ghost use Rattle.std.specs.Prelude.{true, false, Option, Some, is_some};
ghost use Rattle.lan_base.specs.declared.frame.UserFrame.{UserFrame};
ghost use Rattle.lan_core.specs.declared.event.Event.{Event};
ghost use Rattle.lan_core.specs.declared.event.Event.TheVariants as events;
ghost use Rattle.lan_core.specs.declared.fact.Fact.{Fact};
ghost use Rattle.lan_core.specs.declared.settings.Settings.{Settings};
ghost use Rattle.lan_core.specs.Run.{Run, Happening, happened};
ghost use Rattle.lan_core.specs.Ledgers.{air, emitted};
ghost use Rattle.lan_core.specs.Claims.{next, Waiting, claimed, waiting, frame_of_claim};
ghost use Rattle.lan_core.specs.Expected.{Drawn, expected};
ghost use Rattle.lan_core.specs.Legal.{IsStep, IsStepped};
ghost use Rattle.lan_core.specs.Stops.{MayCome};
ghost use Rattle.next_numbers.specs.Bounds.{AreBounded, IsPlain};

/// A claim that got a number waits for its emission.
pub fn law_a_claim_that_got_a_number_waits()
    ensures { (settings : Settings) (users : List UserFrame) (r : Run) (given : Option UserFrame)
        (s user pn : ℕ) (drawn : Drawn) (shown : List Fact)
        → length (emitted r) ≤ length (claimed settings r)
        → MayCome settings users r given (events.Claim s user pn)
        → expected settings users r (events.Claim s user pn) drawn ≡ Some shown
        → (pn == 0) ≡ false
        → is_some (waiting settings (happened (events.Claim s user pn) shown ∷ r)) ≡ true }
{}

/// The earliest claim that waits in a stepped run has its frame.
pub fn law_a_claim_that_waits_has_its_frame()
    ensures { (settings : Settings) (users : List UserFrame) (r : Run) (w : Waiting)
        → IsStepped settings users r → waiting settings r ≡ Some w
        → is_some (frame_of_claim users r w) ≡ true }
{}

/// No more frames are emitted than claims got a number.
pub fn law_emissions_stay_in_turn()
    ensures { (settings : Settings) (users : List UserFrame) (x : Happening) (r : Run)
        → IsStep settings users x r → length (emitted r) ≤ length (claimed settings r)
        → length (emitted (x ∷ r)) ≤ length (claimed settings (x ∷ r)) }
{}

/// Next packet numbers begin at 1 and are never below it. An event that is no claim leaves them
/// within their bound, and so does a claim that gets no number; a claim of a number within it passes
/// the bound by one at most.
pub fn law_next_numbers_stay_bounded()
    ensures first { (settings : Settings) → AreBounded settings [] 1 }
    ensures positive { (settings : Settings) (s epoch : ℕ) (r : Run)
        → 1 ≤ next settings s epoch r }
    ensures plain { (settings : Settings) (users : List UserFrame) (r : Run) (event : Event)
        (drawn : Drawn) (shown : List Fact) (most : ℕ) → AreBounded settings r most
        → IsPlain settings r event → expected settings users r event drawn ≡ Some shown
        → AreBounded settings (happened event shown ∷ r) most }
    ensures claim { (settings : Settings) (users : List UserFrame) (r : Run) (s user pn : ℕ)
        (drawn : Drawn) (shown : List Fact) (most : ℕ) → AreBounded settings r most → pn ≤ most
        → expected settings users r (events.Claim s user pn) drawn ≡ Some shown
        → AreBounded settings (happened (events.Claim s user pn) shown ∷ r) (most + 1) }
    ensures refused { (settings : Settings) (users : List UserFrame) (r : Run) (s user : ℕ)
        (drawn : Drawn) (shown : List Fact) (most : ℕ) → AreBounded settings r most
        → expected settings users r (events.Claim s user 0) drawn ≡ Some shown
        → AreBounded settings (happened (events.Claim s user 0) shown ∷ r) most }
{}

/// No event takes a frame from the air, and an emission puts one there.
pub fn law_an_emission_puts_a_frame_on_the_air()
    ensures stays { (x : Happening) (r : Run) → length (air r) ≤ length (air (x ∷ r)) }
    ensures emits { (settings : Settings) (users : List UserFrame) (r : Run) (drawn : Drawn)
        (shown : List Fact) → expected settings users r events.Emit drawn ≡ Some shown
        → length (air (happened events.Emit shown ∷ r)) ≡ length (air r) + 1 }
{}
