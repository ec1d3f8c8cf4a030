//! What transmits at a station follows the facts of its events, and the numbers that a station
//! claims and shows are those of the run.

ghost use Rattle.std.specs.Prelude.{◌≡◌, ◌≤◌, ◌+◌, ◌∷◌, ℕ, List, length, Contains, Some};
ghost use Rattle.lan_base.specs.declared.frame.UserFrame.{UserFrame};
ghost use Rattle.lan_base.specs.declared.key_id.KeyId.{KeyId};
ghost use Rattle.lan_base.specs.declared.association_number.AssociationNumber.{AssociationNumber};
ghost use Rattle.aes_block.specs.declared.secret.Secret.{Secret};
ghost use Rattle.sak_exchange.specs.declared.held_key.HeldKey.{HeldKey};
ghost use Rattle.lan_core.specs.declared.settings.Settings.{Settings};
ghost use Rattle.lan_core.specs.declared.fact.Fact.TheVariants.{Installed};
ghost use Rattle.lan_core.specs.Run.{Run, Happening, stations};
ghost use Rattle.lan_core.specs.Lives.{transmitting_at};
ghost use Rattle.lan_core.specs.Claims.{next};
ghost use Rattle.lan_core.specs.Unstopped.{next_under};
ghost use Rattle.lan_core.specs.Keys.{held_at};
ghost use Rattle.lan_core.specs.Legal.{IsStep, IsStepped};
ghost use Rattle.lan_core.specs.Standing.{State, StandsFor};
ghost use Rattle.group_safety.specs.Transmitting.{Carried, nothing, follow, CarriesAt};
ghost use Rattle.group_safety.specs.Accounts.{blank, next_now, account_at, ahead, onward, IsExact};
ghost use Rattle.group_safety.specs.Accounts.{claims_of};

/// What is carried at a station follows the facts of one event more: none of them is refused, and
/// what results is what transmits after the event.
pub fn law_facts_move_what_transmits()
    ensures { (settings : Settings) (users : List UserFrame) (old new : State) (x : Happening)
        (r : Run) → StandsFor settings users old r → StandsFor settings users new (x ∷ r)
        → IsStep settings users x r → (s : ℕ) (k : Carried) → CarriesAt settings s r k
        → (j : Carried) × (follow s x.facts k ≡ Some j) × CarriesAt settings s (x ∷ r) j }
{}

/// A key that an event installs is held after it, with its epoch and its SAK.
pub fn law_an_installed_key_is_held()
    ensures { (settings : Settings) (users : List UserFrame) (old : State) (x : Happening) (r : Run)
        → StandsFor settings users old r → IsStep settings users x r
        → (s : ℕ) (id : KeyId) (an : AssociationNumber) (epoch : ℕ) (sak : Secret)
        → Contains x.facts (Installed s id an epoch sak)
        → (h : HeldKey) × (held_at settings s (x ∷ r) an ≡ Some h) × (h.key.epoch ≡ epoch)
        × (h.key.sak ≡ sak) }
{}

/// What a run with an event more tells of a station is what it told before, ahead of the event,
/// with what its facts moved.
pub fn law_an_account_goes_on()
    ensures { (settings : Settings) (users : List UserFrame) (x : Happening) (r : Run)
        → IsStep settings users x r → IsExact settings r x.event
        → (s : ℕ) (k j : Carried) → CarriesAt settings s r k
        → account_at settings s (x ∷ r) j
        ≡ record (ahead s x.event (account_at settings s r k)) { carried = j } }
{}

/// So it is where an event shows or claims any number: what the run told before, onward by the
/// event, with what its facts moved.
pub fn law_an_account_goes_onward()
    ensures { (settings : Settings) (users : List UserFrame) (x : Happening) (r : Run)
        → IsStep settings users x r → (s : ℕ) (k j : Carried) → CarriesAt settings s r k
        → account_at settings s (x ∷ r) j
        ≡ record (onward s x.event (account_at settings s r k)) { carried = j } }
{}

/// The next number of an account is the next one of the run under the key that transmits.
pub fn law_the_next_number_is_told()
    ensures { (settings : Settings) (r : Run) (s : ℕ) (k : Carried) → CarriesAt settings s r k
        → next_now (account_at settings s r k)
        ≡ next_under settings s r (transmitting_at settings s r) }
{}

/// Before a station has started, nothing transmits at its place, and nothing is told of it.
pub fn law_a_place_without_a_station_is_blank()
    ensures { (settings : Settings) (users : List UserFrame) (old : State) (r : Run) (s : ℕ)
        → StandsFor settings users old r → IsStepped settings users r → length (stations r) ≤ s
        → CarriesAt settings s r nothing × (account_at settings s r nothing ≡ blank) }
{}

/// Where events are exact, a next number grows by one with a claim at most, and with no other event.
pub fn law_next_numbers_grow_by_claims()
    ensures { (settings : Settings) (users : List UserFrame) (x : Happening) (r : Run)
        → IsStep settings users x r → IsExact settings r x.event → (s epoch : ℕ)
        → next settings s epoch (x ∷ r) ≤ next settings s epoch r + claims_of x.event }
{}
