//! What the words tell of a run.

ghost use Rattle.std.specs.Prelude.{◌≡◌, ◌+◌, ◌≤◌, ◌∷◌, ◌++◌, [], ℕ, List, length};
ghost use Rattle.lan_base.specs.declared.address.Sci.{Sci};
ghost use Rattle.lan_base.specs.declared.association_number.AssociationNumber.{AssociationNumber};
ghost use Rattle.lan_base.specs.declared.frame.UserFrame.{UserFrame};
ghost use Rattle.lan_base.specs.declared.name.Name.{Name};
ghost use Rattle.association_slots.specs.Rule.{Around};
ghost use Rattle.association_slots.specs.Views.{In, ControlAt, IsOpen, told_sum};
ghost use Rattle.association_slots.specs.declared.view.ControlView.{ControlView};
ghost use Rattle.association_slots.specs.declared.view.Mark.{Mark};
ghost use Rattle.association_slots.specs.declared.view.View.{View};
ghost use Rattle.lan_core.specs.declared.event.Event.{Event};
ghost use Rattle.lan_core.specs.declared.event.Event.TheVariants as events;
ghost use Rattle.lan_core.specs.declared.settings.Settings.{Settings};
ghost use Rattle.lan_core.specs.Run.{Run, Happening, stations};
ghost use Rattle.lan_core.specs.Claims.{next};
ghost use Rattle.lan_core.specs.Ledgers.{claims};
ghost use Rattle.lan_core.specs.Legal.{IsStep, IsStepped, unused};
ghost use Rattle.lan_core.specs.Expected.{last_number};
ghost use Rattle.lan_core.specs.Standing.{State, StandsFor};
ghost use Rattle.group_safety.specs.Transmitting.{Carried};
ghost use Rattle.group_safety.specs.Accounts.{Account, blank, gaining, onward, claims_of, IsExact};
ghost use Rattle.station_words.specs.Counting.{times_in, times_under};
ghost use Rattle.station_words.specs.Seats.{AreAllIn, AreSpent};
ghost use Rattle.station_words.specs.Telling.{KeepUp, Tells, CatchUp, HasClaimsBeside};
ghost use Rattle.station_words.specs.Shown.{Show, ShowAtLeast};
ghost use Rattle.station_words.specs.Ties.{AreTied, AreAhead, HaveKeptUp, KeepAhead};
ghost use Rattle.station_words.specs.Ties.{HaveCaughtUp, CaughtAhead, HaveClaimsBeside};
ghost use Rattle.station_words.specs.Ties.{AreToldAll, Followed};

use association_slots::{law_counted_next, law_few_numbers_are_lost, law_words};
use group_safety::{
    law_a_place_without_a_station_is_blank, law_an_account_goes_on, law_an_account_goes_onward,
    law_an_installed_key_is_held, law_facts_move_what_transmits,
};

/// Between any two steps the words of a station show what they tell: the current word what
/// transmits, and the one open slot its next packet number.
pub fn law_the_words_show_what_transmits()
    ensures { (c : ControlView) (words : List ℕ) (views : List View) (a : Account)
        → Around c words views → Tells a c → Show a words }
{
    law_words();
    law_counted_next();
}

/// Also where they only keep up with it, but for the packet number, which isn't below the next one.
pub fn law_the_words_are_not_behind()
    ensures { (c : ControlView) (words : List ℕ) (views : List View) (a : Account)
        → Around c words views → KeepUp a c → ShowAtLeast a words }
{
    law_words();
    law_counted_next();
}

/// Each number of an epoch was claimed once at most.
pub fn law_each_number_is_claimed_once()
    ensures { (c : ControlView) (a : Account) → Tells a c
        → (epoch pn : ℕ) → times_in epoch pn a.claims ≤ 1 }
{}

/// Words to which nothing happened are those of a station that is about to start.
pub fn law_new_words_are_tied()
    ensures tied { (settings : Settings) (users : List UserFrame) (old : State) (r : Run)
        (name : Name) (sci : Sci) (priority : ℕ) (cs : List ControlAt) (c : ControlAt)
        → StandsFor settings users old r → IsStepped settings users r → AreTied settings r cs
        → Tells blank c.view → AreAhead settings r (events.Start name sci priority) (cs ++ c ∷ []) }
    ensures kept_up { (settings : Settings) (users : List UserFrame) (old : State) (r : Run)
        (name : Name) (sci : Sci) (priority : ℕ) (cs : List ControlAt) (c : ControlAt)
        → StandsFor settings users old r → IsStepped settings users r → HaveKeptUp settings r cs
        → Tells blank c.view → KeepAhead settings r (events.Start name sci priority) (cs ++ c ∷ []) }
    ensures caught_up { (settings : Settings) (users : List UserFrame) (old : State) (r : Run)
        (name : Name) (sci : Sci) (priority : ℕ) (cs : List ControlAt) (c : ControlAt)
        → StandsFor settings users old r → IsStepped settings users r → HaveCaughtUp settings r cs
        → Tells blank c.view
        → CaughtAhead settings r (events.Start name sci priority) (cs ++ c ∷ []) }
{
    law_a_place_without_a_station_is_blank();
}

/// Where words tell a run, they keep up with it, and have caught up with it.
pub fn law_words_that_tell_keep_up()
    ensures kept_up { (settings : Settings) (r : Run) (cs : List ControlAt) → AreTied settings r cs
        → HaveKeptUp settings r cs }
    ensures caught_up { (settings : Settings) (r : Run) (cs : List ControlAt)
        → AreTied settings r cs → HaveCaughtUp settings r cs }
{}

/// Also while seats are out, where the words of all stations took the step of an event, and then
/// followed its facts, they keep up with the run with it, whatever number the event shows.
pub fn law_all_words_keep_up()
    ensures { (settings : Settings) (users : List UserFrame) (old new : State) (x : Happening)
        (r : Run) (cs ds : List ControlAt) → StandsFor settings users old r
        → StandsFor settings users new (x ∷ r) → IsStep settings users x r
        → KeepAhead settings r x.event cs → Followed settings (x ∷ r) x.facts cs ds
        → HaveKeptUp settings (x ∷ r) ds }
{
    law_facts_move_what_transmits();
    law_an_installed_key_is_held();
    law_an_account_goes_onward();
}

/// Where the words of all stations took the step of an event, and then followed its facts, they
/// tell the run with it.
pub fn law_all_words_stay_tied()
    ensures { (settings : Settings) (users : List UserFrame) (old new : State) (x : Happening)
        (r : Run) (cs ds : List ControlAt) → StandsFor settings users old r
        → StandsFor settings users new (x ∷ r) → IsStep settings users x r
        → IsExact settings r x.event → AreAhead settings r x.event cs
        → Followed settings (x ∷ r) x.facts cs ds → AreTied settings (x ∷ r) ds }
{
    law_facts_move_what_transmits();
    law_an_installed_key_is_held();
    law_an_account_goes_on();
}

// ---- after workers claimed beside

/// Words that have caught up with a run keep up with it, so that workers may claim beside again: no
/// seat is out, and the run has the claims that seats told.
pub fn law_caught_up_words_keep_up()
    ensures { (settings : Settings) (r : Run) (cs : List ControlAt) → HaveCaughtUp settings r cs
        → HaveKeptUp settings r cs × AreAllIn cs × AreToldAll r cs }
{}

/// How claims stand beside an account: none at first; an event that both have goes on with both, and
/// so do facts; and a claim that one has alone is one more.
pub fn law_claims_stand_beside()
    ensures first { (a : Account) (c : ControlView) → KeepUp a c → HasClaimsBeside a a }
    ensures event { (a b : Account) (s : ℕ) (event : Event) → claims_of event ≡ 0
        → HasClaimsBeside a b → HasClaimsBeside (onward s event a) (onward s event b) }
    ensures claim { (a b : Account) (n : ℕ) → HasClaimsBeside a b
        → HasClaimsBeside a (gaining n b) }
    ensures facts { (a b : Account) (k : Carried) → HasClaimsBeside a b
        → HasClaimsBeside (record a { carried = k }) (record b { carried = k }) }
{}

/// Once all seats came back, words that kept up with a run have caught up with the run that has
/// their claims beside.
pub fn law_words_catch_up()
    ensures { (settings : Settings) (q r : Run) (cs : List ControlAt) → HaveKeptUp settings q cs
        → AreAllIn cs → HaveClaimsBeside settings q r → AreToldAll r cs
        → HaveCaughtUp settings r cs }
{}

/// Where the words of all stations took the step of an event after that, and then followed its
/// facts, they have caught up with the run with it, whatever number the event shows.
pub fn law_all_words_stay_caught_up()
    ensures { (settings : Settings) (users : List UserFrame) (old new : State) (x : Happening)
        (r : Run) (cs ds : List ControlAt) → StandsFor settings users old r
        → StandsFor settings users new (x ∷ r) → IsStep settings users x r
        → CaughtAhead settings r x.event cs → Followed settings (x ∷ r) x.facts cs ds
        → HaveCaughtUp settings (x ∷ r) ds }
{
    law_facts_move_what_transmits();
    law_an_installed_key_is_held();
    law_an_account_goes_onward();
}

/// Words that have caught up are not behind their account, and ahead of it by sixteen numbers at
/// most.
pub fn law_words_are_little_ahead()
    ensures { (a : Account) (c : ControlView) → CatchUp a c → (an : AssociationNumber) (epoch : ℕ)
        → (IsOpen c an epoch → a.nexts epoch ≤ told_sum c an epoch)
        × (told_sum c an epoch ≤ a.nexts epoch + 16) }
{
    law_few_numbers_are_lost();
}

/// A run with whose numbers the words have caught up leaves out few of them.
pub fn law_words_keep_a_run_thrifty()
    ensures { (settings : Settings) (users : List UserFrame) (state : State) (r : Run)
        (cs : List ControlAt) → StandsFor settings users state r → IsStepped settings users r
        → HaveCaughtUp settings r cs → (s epoch : ℕ) → unused settings s epoch r ≤ 16 }
{
    law_few_numbers_are_lost();
    law_a_place_without_a_station_is_blank();
}

/// The same, where some tick showed a number that the run hasn't, before all seats came back, and no
/// number was told of a place without a station.
pub fn law_looked_words_keep_a_run_thrifty()
    ensures { (settings : Settings) (q r : Run) (cs : List ControlAt) (t n : ℕ)
        → KeepAhead settings q (events.Tick t n) cs → AreAllIn cs → HaveClaimsBeside settings q r
        → AreToldAll r cs
        → ((s epoch : ℕ) → length (stations r) ≤ s → next settings s epoch r ≡ 1)
        → (s epoch : ℕ) → unused settings s epoch r ≤ 16 }
{
    law_few_numbers_are_lost();
}

/// Where few numbers were claimed, the words have packet numbers left, and no seat found an epoch
/// over.
pub fn law_few_claims_spend_no_words()
    ensures words { (a : Account) (c : ControlView) → CatchUp a c
        → (an : AssociationNumber) (epoch : ℕ) → times_under epoch a.claims + 17 ≤ last_number
        → told_sum c an epoch ≤ last_number }
    ensures marks { (a : Account) (c : ControlView) (m : Mark) → CatchUp a c
        → times_under m.epoch a.claims + 17 ≤ last_number → In m c.told_over → ⊥ }
    ensures stations { (settings : Settings) (r : Run) (cs : List ControlAt) (s : ℕ)
        → HaveCaughtUp settings r cs → length (claims r) + 17 ≤ last_number → AreSpent s cs → ⊥ }
{
    law_few_numbers_are_lost();
}
