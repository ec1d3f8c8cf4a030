//! Laws of races.

ghost use Rattle.std.specs.Prelude.{◌≡◌, ◌≤◌, ◌<◌, ◌+◌, ◌^◌, ◌∷◌, ◌++◌, [], ℕ, true, List, length, map};
ghost use Rattle.lan_base.specs.declared.frame.UserFrame.{UserFrame};
ghost use Rattle.association_slots.specs.Views.{ControlAt};
ghost use Rattle.lan_core.specs.declared.settings.Settings.{Settings};
ghost use Rattle.std.specs.List.{AllByRecursion};
ghost use Rattle.lan_core.specs.declared.event.Event.{Event};
ghost use Rattle.lan_core.specs.Run.{Happening, Run, stations};
ghost use Rattle.lan_core.specs.Legal.{IsStep, IsStepped, unused};
ghost use Rattle.lan_core.specs.Order.{is_event_of};
ghost use Rattle.lan_core.specs.Standing.{State, StandsFor};
ghost use Rattle.lan_core.specs.Parts.{AreProtected, followed_by};
ghost use Rattle.worker_races.specs.declared.merge.step.Step.{Step};
ghost use Rattle.worker_races.specs.merge.Raced.{IsRaced};
ghost use Rattle.worker_races.specs.merge.Sealing.{AreCards, AreSealed};
ghost use Rattle.worker_races.specs.merge.Steps.{AreRising, AreSteps, counted_from, moves_of};
ghost use Rattle.worker_races.specs.merge.Table.{Controls};
ghost use Rattle.worker_races.specs.merge.Taking.{frames_of};
ghost use Rattle.worker_races.specs.merge.Weaving.{IsWoven};
ghost use Rattle.worker_races.specs.merge.Worked.{NoneExhausted};
ghost use Rattle.station_words.specs.Ties.{Followed, HaveCaughtUp, HaveLooked, KeepAhead};
ghost use Rattle.worker_races.specs.Beside.{Race, WereBeside};
ghost use Rattle.worker_races.specs.Beside.{ans_in, attempts_in, cards_in, logs_in, moves_in};
ghost use Rattle.worker_races.specs.Beside.{pointed_in};
ghost use Rattle.worker_races.specs.Carded.{AreCarded, KeepCarried};
ghost use Rattle.worker_races.specs.Going.{HaveGone, WereTold};
ghost use Rattle.worker_races.specs.Performed.{ArePerformed, IsPerformed, happenings, run_after};

use crate::merge::law_facts_tell_what_they_move;
use association_slots::law_few_numbers_are_lost;
use group_safety::{
    law_a_place_without_a_station_is_blank, law_an_installed_key_is_held,
    law_facts_move_what_transmits,
};
use lan_core::law_epochs_count;
use station_words::{law_looked_words_keep_a_run_thrifty, law_words_catch_up};

/// Control performed one event more beside workers, which told the words what it says to them.
pub fn law_control_goes_on()
    ensures run { (r : Run) (performed : Controls) (t : ℕ) (x : Happening)
        → run_after (performed ++ (t, x) ∷ []) r ≡ x ∷ run_after performed r }
    ensures performed { (settings : Settings) (users : List UserFrame) (r : Run)
        (performed : Controls) (steps : List Step) (t : ℕ) (x : Happening) (kept : Step)
        → ArePerformed settings users r performed steps
        → IsPerformed settings users (run_after performed r) t x kept
        → ArePerformed settings users r (performed ++ (t, x) ∷ []) (steps ++ kept ∷ []) }
    ensures gone { (settings : Settings) (r : Run) (performed : Controls) (t : ℕ) (x : Happening)
        (old mid new : List ControlAt) → HaveGone settings r performed old mid
        → WereTold settings (run_after performed r) t x mid new
        → HaveGone settings r (performed ++ (t, x) ∷ []) old new }
{}

/// Where the words of all stations took the step of an event of a station, by a look at most, and
/// then followed its facts, they were told what it says to them.
pub fn law_an_event_tells_the_words()
    ensures { (settings : Settings) (users : List UserFrame) (old new : State) (r : Run) (t : ℕ)
        (x : Happening) (cs ds es : List ControlAt) → StandsFor settings users old r
        → StandsFor settings users new (x ∷ r) → IsStepped settings users r
        → IsStep settings users x r → is_event_of t x.event ≡ true → HaveLooked cs ds
        → KeepAhead settings r x.event ds → Followed settings (x ∷ r) x.facts ds es
        → WereTold settings r t x cs es }
{
    law_facts_move_what_transmits();
    law_an_installed_key_is_held();
    law_facts_tell_what_they_move();
}

/// No worker of a race found an epoch without a packet number left.
pub fn law_no_log_of_a_race_is_exhausted()
    ensures { (race : Race) → WereBeside race → AllByRecursion NoneExhausted (logs_in race) }
{
    law_few_numbers_are_lost();
}

/// What control performed beside workers, and their logs, are a race after the run before, with all
/// that `merge` asks.
pub fn law_a_race_of_workers_is_a_race()
    ensures raced { (race : Race) → WereBeside race
        → IsRaced race.settings race.users race.base (ans_in race) (pointed_in race) race.run
        (moves_in race) (attempts_in race) }
    ensures steps { (race : Race) → WereBeside race → AreSteps race.steps (moves_in race) }
    ensures rising { (race : Race) → WereBeside race
        → AreRising (moves_of race.steps) (logs_in race) }
    ensures few { (race : Race) → WereBeside race → length (logs_in race) + 1 < 2 ^ 32 }
    ensures control { (race : Race) → map (λ m. m.x) (moves_in race) ≡ happenings race.performed }
{
    law_few_numbers_are_lost();
}

/// With a part that is woven of control and the logs, the words have caught up with the run, unless a
/// look at them came behind it.
pub fn law_words_catch_up_with_a_race()
    ensures { (race : Race) → WereBeside race → race.looked ≡ race.moved → (part : List Happening)
        → IsWoven race.base part (happenings race.performed) (attempts_in race)
        → IsStepped race.settings race.users (followed_by part race.run)
        → HaveCaughtUp race.settings (followed_by part race.run) race.after }
{
    law_words_catch_up();
}

/// Also where one did, the run leaves out few packet numbers of a key, where a group stood for the run
/// before.
pub fn law_few_numbers_of_a_race_are_unused()
    ensures { (race : Race) → WereBeside race → (state : State)
        → StandsFor race.settings race.users state race.run → (part : List Happening)
        → IsWoven race.base part (happenings race.performed) (attempts_in race)
        → IsStepped race.settings race.users (followed_by part race.run) → (s epoch : ℕ)
        → unused race.settings s epoch (followed_by part race.run) ≤ 16 }
{
    law_looked_words_keep_a_run_thrifty();
    law_a_place_without_a_station_is_blank();
}

/// Where the words of all stations took the step of an event, and then followed its facts, their
/// cards stay those of the keys that the stations installed.
pub fn law_cards_stay_right()
    ensures { (settings : Settings) (users : List UserFrame) (old new : State) (x : Happening)
        (r : Run) (ds es : List ControlAt) → StandsFor settings users old r
        → StandsFor settings users new (x ∷ r) → IsStepped settings users r
        → IsStep settings users x r → KeepCarried settings r ds
        → Followed settings (x ∷ r) x.facts ds es → AreCarded settings r ds
        → AreCarded settings (x ∷ r) es }
{
    law_epochs_count();
    law_facts_move_what_transmits();
    law_an_installed_key_is_held();
}

/// A station that is about to start installed no key, so that its words owe no card.
pub fn law_new_words_owe_no_card()
    ensures { (settings : Settings) (users : List UserFrame) (r : Run) (cs : List ControlAt)
        (c : ControlAt) → IsStepped settings users r → length cs ≡ length (stations r)
        → AreCarded settings r cs → AreCarded settings r (cs ++ c ∷ []) }
{}

/// Where the cards of the words were right when control was done, those that the race knows are
/// right, and with a part that is woven of control and the logs the words behind it have them.
pub fn law_cards_of_a_race_are_right()
    ensures known { (race : Race) → WereBeside race
        → AreCarded race.settings (run_after race.performed race.run) race.moved
        → AreCards race.settings (cards_in race) (run_after race.performed race.run) }
    ensures behind { (race : Race) → WereBeside race
        → AreCarded race.settings (run_after race.performed race.run) race.moved
        → (part : List Happening)
        → IsWoven race.base part (happenings race.performed) (attempts_in race)
        → IsStepped race.settings race.users (followed_by part race.run)
        → AreCarded race.settings (followed_by part race.run) race.after }
{}

/// Where the cards of the words are those of the keys that the stations installed, the frames of
/// the logs are those of the part's claims, in the order of its events, each protected as claimed.
pub fn law_frames_of_a_race_are_protected()
    ensures sealed { (race : Race) → WereBeside race
        → AreSealed race.users (cards_in race) race.run (race.base + 1) (logs_in race) }
    ensures protected { (race : Race) → WereBeside race
        → AreCards race.settings (cards_in race) (run_after race.performed race.run)
        → (part : List Happening) (events : List Event)
        → map (λ h. h.event) part ≡ map (counted_from race.base) events
        → IsWoven race.base part (happenings race.performed) (attempts_in race)
        → IsStepped race.settings race.users (followed_by part race.run)
        → AreProtected race.settings race.users (frames_of events (logs_in race)) part race.run }
{}
