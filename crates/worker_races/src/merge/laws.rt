//! Laws of races.

ghost use Rattle.std.specs.Prelude.{◌≡◌, ◌≤◌, ◌<◌, ◌++◌, ◌∷◌, [], ℕ, true, Some, List, map};
ghost use Rattle.std.specs.Prelude.{reverse};
ghost use Rattle.std.specs.List.{AllByRecursion};
ghost use Rattle.std.specs.List.Sorted.{IsNonDecreasingBy};
ghost use Rattle.lan_base.specs.declared.association_number.AssociationNumber.{AssociationNumber};
ghost use Rattle.lan_base.specs.declared.frame.UserFrame.{UserFrame};
ghost use Rattle.sak_exchange.specs.declared.held_key.Key.{Key};
ghost use Rattle.association_slots.specs.declared.view.Current.{Current};
ghost use Rattle.association_slots.specs.Views.{In, WasAbsent, absent_after, present_at};
ghost use Rattle.data_workers.specs.declared.entry.Entry.{Entry};
ghost use Rattle.lan_core.specs.declared.settings.Settings.{Settings};
ghost use Rattle.lan_core.specs.declared.fact.Fact.{Fact};
ghost use Rattle.lan_core.specs.Run.{Happening, Run};
ghost use Rattle.lan_core.specs.Lives.{transmitting_at};
ghost use Rattle.lan_core.specs.Order.{is_event_of};
ghost use Rattle.lan_core.specs.Legal.{IsLegal, IsStep, IsStepped, IsThrifty, is_replaced, unused};
ghost use Rattle.group_safety.specs.Transmitting.{Carried, CarriesAt, follow, newest};
ghost use Rattle.worker_races.specs.declared.merge.step.Step.{Step};
ghost use Rattle.worker_races.specs.merge.Places.{Move, Attempt, Standing, Follows, Lives, Noted, place};
ghost use Rattle.worker_races.specs.merge.Merged.{merged, entries_of};
ghost use Rattle.worker_races.specs.merge.Raced.{AreMoves, IsRaced, ShowsCore, epoch_at, standing_at, woven};
ghost use Rattle.worker_races.specs.merge.Weaving.{IsWoven, part_of};
ghost use Rattle.worker_races.specs.merge.Steps.{AreRising, AreSteps, logs_of, moves_of};
ghost use Rattle.worker_races.specs.merge.Given.{AreGiven, AreUnder, ArePerformed, IsGiven, IsPast};
ghost use Rattle.worker_races.specs.merge.Words.{told_by, told_in};
ghost use Rattle.worker_races.specs.merge.Table.{Controls, IsTold, an_of, flipped, move_at, moves_at};
ghost use Rattle.worker_races.specs.merge.Table.{an_in, current_of, words_in, words_of};

/// The run with the merged list of a race behind it is legal.
pub fn law_a_race_is_legal()
    ensures { (settings : Settings) (users : List UserFrame) (base : ℕ)
        (ans : ℕ → ℕ → AssociationNumber) (pointed : ℕ → ℕ) (r : Run)
        (moves : List Move) (logs : List (List Attempt))
        → IsRaced settings users base ans pointed r moves logs
        → IsLegal settings users (woven settings base (merged moves (entries_of logs)) r) }
{}

/// A run that was thrifty is so with the merged list of a race behind it, where few numbers are
/// unused at the end.
pub fn law_a_race_is_thrifty()
    ensures { (settings : Settings) (users : List UserFrame) (base : ℕ)
        (ans : ℕ → ℕ → AssociationNumber) (pointed : ℕ → ℕ) (r : Run)
        (moves : List Move) (logs : List (List Attempt))
        → IsRaced settings users base ans pointed r moves logs → IsThrifty settings r
        → ((s epoch : ℕ)
        → unused settings s epoch (woven settings base (merged moves (entries_of logs)) r) ≤ 16)
        → IsThrifty settings (woven settings base (merged moves (entries_of logs)) r) }
{}

/// What happens by the merged list of a race is woven of control and of the logs.
pub fn law_a_race_is_woven()
    ensures { (settings : Settings) (users : List UserFrame) (base : ℕ)
        (ans : ℕ → ℕ → AssociationNumber) (pointed : ℕ → ℕ) (r : Run)
        (moves : List Move) (logs : List (List Attempt))
        → IsRaced settings users base ans pointed r moves logs
        → IsWoven base (part_of settings base (merged moves (entries_of logs)) r)
        (map (λ m. m.x) moves) logs }
{}

/// Along each log of a race the places never fall.
pub fn law_places_rise_along_a_log()
    ensures { (settings : Settings) (users : List UserFrame) (base : ℕ)
        (ans : ℕ → ℕ → AssociationNumber) (pointed : ℕ → ℕ) (r : Run)
        (moves : List Move) (logs : List (List Attempt))
        → IsRaced settings users base ans pointed r moves logs
        → AllByRecursion (IsNonDecreasingBy (λ x. place x moves)) logs }
{}

/// Along each log of a race the places never fall, as `merge` asks.
pub fn law_a_race_rises()
    ensures { (settings : Settings) (users : List UserFrame) (base : ℕ)
        (ans : ℕ → ℕ → AssociationNumber) (pointed : ℕ → ℕ) (r : Run)
        (steps : List Step) (moves : List Move)
        (logs : List (List Entry)) → AreSteps steps moves
        → IsRaced settings users base ans pointed r moves (logs_of 0 logs)
        → AreRising (moves_of steps) logs }
{}

/// What control gives of a race is all that a race asks of control: the keys that transmit move as
/// the run itself says.
pub fn law_control_is_raced()
    ensures moves { (settings : Settings) (users : List UserFrame)
        (ans : ℕ → ℕ → AssociationNumber) (r : Run)
        (moves : List Move) → IsStepped settings users r
        → AreGiven settings users ans r moves → AreMoves settings users ans r moves }
    ensures shows { (settings : Settings) (users : List UserFrame)
        (ans : ℕ → ℕ → AssociationNumber) (r : Run)
        → IsStepped settings users r → AreUnder settings ans r → ShowsCore settings ans r }
    ensures follows { (settings : Settings) (users : List UserFrame)
        (ans : ℕ → ℕ → AssociationNumber) (r : Run)
        (moves : List Move) (s pointed : ℕ) → IsStepped settings users r
        → AreGiven settings users ans r moves → IsPast settings s r pointed
        → epoch_at settings s r ≤ pointed → Follows s (standing_at settings s pointed r) moves }
{}

/// A note, or a claimed epoch, of which the words say that it was made in the race or not before
/// its last epoch, is where the places ask for it.
pub fn law_words_place_the_logs()
    ensures noted { (ans : ℕ → AssociationNumber) (s a : ℕ) (moves : List Move) (now : Standing)
        (old : List Current)
        → (WasAbsent old a → (a ≤ now.pointed) × (0 < now.transmitting → a < now.pointed))
        → now.pointed ≤ a → WasAbsent (told_in ans s now.pointed moves ++ old) a
        → Noted s now a moves }
    ensures lives { (ans : ℕ → AssociationNumber) (s : ℕ) (an : AssociationNumber) (e : ℕ)
        (moves : List Move) (now : Standing) (old : List Current)
        → (0 < now.transmitting → now.transmitting ≡ now.pointed)
        → (In (present_at an e) old → e ≤ now.pointed) → now.pointed ≤ e
        → (now.transmitting ≡ 0 → now.pointed < e)
        → In (present_at an e) (told_in ans s now.pointed moves ++ old) → Lives s now e moves }
{}

/// What an event of a station tells its current word, by its facts: nothing where the key that
/// transmits stays, an unpoint where it ends, a point where another begins, or both.
pub fn law_an_event_tells_the_word()
    ensures { (settings : Settings) (s : ℕ) (r : Run) (x : Happening) (top : ℕ)
        (users : List UserFrame) → IsStepped settings users r → IsStep settings users x r
        → is_event_of s x.event ≡ true
        → IsTold top (transmitting_at settings s r) (transmitting_at settings s (x ∷ r))
        (words_of s top (an_of (transmitting_at settings s r)) x.facts) }
{}

/// What facts move of what transmits at a station, they tell its current word: the points after
/// them, newest first, are the words on the points before. So of an event of the station, under the
/// AN of the key that transmits.
pub fn law_facts_tell_what_they_move()
    ensures facts { (s : ℕ) (shown : List Fact) (k j : Carried) → follow s shown k ≡ Some j
        → map current_of j.points
        ≡ reverse (words_of s (newest k.points).epoch (an_in (newest k.points)) shown)
        ++ map current_of k.points }
    ensures step { (settings : Settings) (users : List UserFrame) (s : ℕ) (r : Run)
        (x : Happening) (k j : Carried) → IsStepped settings users r → IsStep settings users x r
        → is_event_of s x.event ≡ true → CarriesAt settings s r k → follow s x.facts k ≡ Some j
        → map current_of j.points ≡ flipped (words_of s (newest k.points).epoch
        (an_of (transmitting_at settings s r)) x.facts) ++ map current_of k.points }
{}

/// Where an event tells the word an unpoint and then a point, its facts drop the key that
/// transmitted and begin another.
pub fn law_an_unpoint_and_a_point_replace()
    ensures { (settings : Settings) (s : ℕ) (r : Run) (x : Happening) (k : Key)
        → transmitting_at settings s r ≡ Some k
        → (users : List UserFrame) (top top1 : ℕ) (an : AssociationNumber) (e : ℕ)
        → IsStepped settings users r → IsStep settings users x r → is_event_of s x.event ≡ true
        → words_of s top (an_of (transmitting_at settings s r)) x.facts
        ≡ absent_after top1 ∷ present_at an e ∷ []
        → is_replaced s k x.facts ≡ true }
{}

/// A step of control gives all that a race asks of one; and what it told the current word, newest
/// first, is what its move says.
pub fn law_a_step_is_given()
    ensures given { (settings : Settings) (users : List UserFrame) (s top : ℕ) (r : Run)
        (x : Happening) → IsStepped settings users r → IsStep settings users x r
        → is_event_of s x.event ≡ true → IsGiven settings users r (move_at settings s top r x) }
    ensures told { (settings : Settings) (users : List UserFrame) (s top : ℕ) (r : Run)
        (x : Happening) (ans : ℕ → ℕ → AssociationNumber) → IsStepped settings users r
        → IsStep settings users x r → is_event_of s x.event ≡ true
        → AreUnder settings ans (x ∷ r)
        → told_by (ans s) top (move_at settings s top r x)
        ≡ flipped (words_of s top (an_of (transmitting_at settings s r)) x.facts) }
{}

/// What control performed gives all that a race asks of it, and told each current word what the
/// moves say.
pub fn law_what_control_performed()
    ensures given { (settings : Settings) (users : List UserFrame) (ans : ℕ → ℕ → AssociationNumber)
        (tops : ℕ → ℕ) (r : Run) (performed : Controls) → IsStepped settings users r
        → ArePerformed settings users ans r performed
        → AreGiven settings users ans r (moves_at settings tops r performed) }
    ensures told { (settings : Settings) (users : List UserFrame)
        (ans : ℕ → ℕ → AssociationNumber) (s : ℕ)
        (tops : ℕ → ℕ) (r : Run) (performed : Controls) → IsStepped settings users r
        → ArePerformed settings users ans r performed
        → told_in (ans s) s (tops s) (moves_at settings tops r performed)
        ≡ words_in settings s (tops s) r performed }
{}
