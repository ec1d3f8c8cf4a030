//! Laws of runs.

ghost use Rattle.std.specs.Prelude.{◌≡◌, ◌↔◌, ◌<◌, ◌≤◌, ◌++◌, ◌∷◌, ℕ, List, length, IsTrue};
ghost use Rattle.std.specs.Prelude.{true, false, Option, Some, is_some};
ghost use Rattle.lan_base.specs.declared.association_number.AssociationNumber.{AssociationNumber};
ghost use Rattle.lan_base.specs.declared.frame.UserFrame.{UserFrame};
ghost use Rattle.sak_exchange.specs.declared.held_key.Key.{Key};
ghost use Rattle.lan_core.specs.declared.event.Event.{Event};
ghost use Rattle.lan_core.specs.declared.event.Event.TheVariants as events;
ghost use Rattle.lan_core.specs.declared.fact.Fact.{Fact};
ghost use Rattle.lan_core.specs.declared.settings.Settings.{Settings};
ghost use Rattle.lan_core.specs.Run.{Run, Happening, happened};
ghost use Rattle.lan_core.specs.Ledgers.{AreNumbered, air, frame_at};
ghost use Rattle.lan_core.specs.Lives.{life, transmitting_at};
ghost use Rattle.lan_core.specs.Claims.{next, a_claim};
ghost use Rattle.lan_core.specs.Order.{Exists, is_event_of};
ghost use Rattle.lan_core.specs.Legal.{IsStep, IsStepped, IsLegal, Ahead, none_ahead};
ghost use Rattle.lan_core.specs.Legal.{is_excused_by, IsExcused, IsExcusedBefore, IsThrifty};
ghost use Rattle.lan_core.specs.Fresh.{IsFresh, IsUnforged};
ghost use Rattle.lan_core.specs.Unstopped.{IsUnstopped, LeavesNoneOut};
ghost use Rattle.lan_core.specs.Standing.{State, StandsFor};
ghost use Rattle.lan_core.specs.Batches.{IsBatch, IsChecked, checked_at};
ghost use Rattle.lan_base.specs.declared.address.Sci.{Sci};
ghost use Rattle.rx_slots.specs.declared.arrival.Checked.{Checked};

/// A claim changes the life of no station, and neither does an emission.
pub fn law_claims_and_emissions_change_no_life()
    ensures claim { (settings : Settings) (s station user pn : ℕ) (shown : List Fact) (r : Run)
        → life settings s (happened (events.Claim station user pn) shown ∷ r) ≡ life settings s r }
    ensures emission { (settings : Settings) (s : ℕ) (shown : List Fact) (r : Run)
        → life settings s (happened events.Emit shown ∷ r) ≡ life settings s r }
{}

/// What happens to others, and a start of another, changes the life of no station that is there.
pub fn law_events_of_others_change_no_life()
    ensures { (settings : Settings) (s : ℕ) (x : Happening) (r : Run) → Exists s r
        → is_event_of s x.event ≡ false → life settings s (x ∷ r) ≡ life settings s r }
{}

/// What a station's receive slots answer to a frame as far as its tag before a batch of protected
/// frames is what they answer to it later in the batch: no such frame changes a key. So what may be
/// admitted before the batch may be admitted later in it.
pub fn law_what_was_checked_stays_checked()
    ensures later { (settings : Settings) (users : List UserFrame) (r batch : Run)
        → IsBatch settings users r batch → (number s : ℕ) (answer : Checked)
        → IsChecked r number s answer → IsChecked (batch ++ r) number s answer }
    ensures stays { (settings : Settings) (users : List UserFrame) (r batch : Run)
        → IsBatch settings users r batch → (s : ℕ) (own : Sci) (octets : List ℕ)
        → checked_at s (batch ++ r) own octets ≡ checked_at s r own octets }
{}

/// Each station of a stepped run is in a life.
pub fn law_each_station_is_in_a_life()
    ensures { (settings : Settings) (users : List UserFrame) (s : ℕ) (r : Run)
        → IsStepped settings users r → Exists s r → is_some (life settings s r) ≡ true }
{}

/// What comes before the later events of a stepped run is a stepped run.
pub fn law_fronts_of_stepped_runs_are_stepped()
    ensures { (settings : Settings) (users : List UserFrame) (later front : Run)
        → IsStepped settings users (later ++ front) → IsStepped settings users front }
{}

/// The frames on the air of a stepped run are numbered in the order in which they came.
pub fn law_frames_are_numbered_in_order()
    ensures { (settings : Settings) (users : List UserFrame) (r : Run)
        → IsStepped settings users r → AreNumbered (air r) }
{}

/// The air of a stepped run has a frame of a number exactly from 1 to how many frames there are.
pub fn law_each_number_has_its_frame()
    ensures { (settings : Settings) (users : List UserFrame) (r : Run) (number : ℕ)
        → IsStepped settings users r → IsTrue (is_some (frame_at r number))
        ↔ (1 ≤ number) × (number ≤ length (air r)) }
{}

/// A run that is excused stays so whatever comes later: each claim that it refused while a key
/// transmitted has its excuse in it.
pub fn law_an_excused_run_stays_excused()
    ensures { (settings : Settings) (ahead : Ahead) (r : Run) → IsExcused settings r
        → IsExcusedBefore settings ahead r }
{}

/// A legal run stays legal with one step more that needs no excuse.
pub fn law_a_step_keeps_a_run_legal()
    ensures { (settings : Settings) (users : List UserFrame) (x : Happening) (r : Run)
        → IsLegal settings users r → IsStep settings users x r
        → is_excused_by settings r none_ahead x.facts ≡ true → IsLegal settings users (x ∷ r) }
{}

/// An unstopped event is a step.
pub fn law_an_unstopped_event_is_a_step()
    ensures { (settings : Settings) (users : List UserFrame) (r : Run) (given : Option UserFrame)
        (event : Event) (nth : ℕ → Option (List ℕ)) (shown : List Fact)
        → IsUnstopped settings users r given event nth shown
        → IsStep settings users (happened event shown) r }
{}

/// A run that is legal, fresh or unforged stays so with an unstopped event.
pub fn law_an_unstopped_event_keeps_a_run_sound()
    ensures legal { (settings : Settings) (users : List UserFrame) (r : Run)
        (given : Option UserFrame) (event : Event) (nth : ℕ → Option (List ℕ)) (shown : List Fact)
        → IsUnstopped settings users r given event nth shown → IsLegal settings users r
        → IsLegal settings users (happened event shown ∷ r) }
    ensures fresh { (settings : Settings) (users : List UserFrame) (r : Run)
        (given : Option UserFrame) (event : Event) (nth : ℕ → Option (List ℕ)) (shown : List Fact)
        → IsUnstopped settings users r given event nth shown → IsStepped settings users r
        → IsFresh r
        → IsFresh (happened event shown ∷ r) }
    ensures unforged { (settings : Settings) (users : List UserFrame) (r : Run)
        (given : Option UserFrame) (event : Event) (nth : ℕ → Option (List ℕ)) (shown : List Fact)
        → IsUnstopped settings users r given event nth shown → IsUnforged settings r
        → IsUnforged settings (happened event shown ∷ r) }
{}

/// A thrifty run stays so with a step that leaves no packet number out.
pub fn law_next_numbers_keep_a_run_thrifty()
    ensures { (settings : Settings) (users : List UserFrame) (x : Happening) (r : Run)
        → IsStep settings users x r → LeavesNoneOut settings r x.event → IsThrifty settings r
        → IsThrifty settings (x ∷ r) }
{}

/// More user frames behind those that are there change nothing of what was: a run stays stepped and
/// legal, and a group stands for it as before.
pub fn law_more_users_change_no_run()
    ensures stepped { (settings : Settings) (users more : List UserFrame) (r : Run)
        → IsStepped settings users r → IsStepped settings (users ++ more) r }
    ensures legal { (settings : Settings) (users more : List UserFrame) (r : Run)
        → IsLegal settings users r → IsLegal settings (users ++ more) r }
    ensures stands { (settings : Settings) (users more : List UserFrame) (lan : State) (r : Run)
        → StandsFor settings users lan r → StandsFor settings (users ++ more) lan r }
{}

/// The next packet number never falls.
pub fn law_the_next_number_never_falls()
    ensures { (settings : Settings) (s epoch : ℕ) (later front : Run)
        → next settings s epoch front ≤ next settings s epoch (later ++ front) }
{}

/// Once a number was claimed, the next one is above it for good.
pub fn law_a_claimed_number_is_passed()
    ensures { (settings : Settings) (s user : ℕ) (an : AssociationNumber) (epoch pn : ℕ)
        (later front : Run)
        → pn < next settings s epoch (later ++ a_claim s user an epoch pn ∷ front) }
{}

/// Once a tick showed a number under the key that transmitted, the next one is not below it.
pub fn law_a_shown_number_is_kept()
    ensures { (settings : Settings) (s shown : ℕ) (k : Key) (told : List Fact) (later front : Run)
        → transmitting_at settings s front ≡ Some k
        → shown ≤ next settings s k.epoch (later ++ happened (events.Tick s shown) told ∷ front) }
{}

/// What comes before the later events of a fresh run is fresh.
pub fn law_fronts_of_fresh_runs_are_fresh()
    ensures { (later front : Run) → IsFresh (later ++ front) → IsFresh front }
{}

/// What comes before the later events of an unforged run is unforged.
pub fn law_fronts_of_unforged_runs_are_unforged()
    ensures { (settings : Settings) (later front : Run) → IsUnforged settings (later ++ front)
        → IsUnforged settings front }
{}
