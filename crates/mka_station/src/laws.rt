//! What the definitions of a station give.

ghost use Rattle.std.specs.Prelude.{◌≡◌, ◌<◌, ◌≤◌, false, ◌+◌, ◌^◌, ◌||◌, ◌∷◌, ◌↔◌, ℕ, Bool, true, List, All, Option, Some, None, is_some, IsTrue, IsFalse};
ghost use Rattle.aes_block.specs.declared.secret.Secret.{Secret};
ghost use Rattle.lan_base.specs.declared.address.Mi.{Mi};
ghost use Rattle.mkpdu_codec.specs.declared.announcement.Announcement.{Announcement};
ghost use Rattle.peer_lists.specs.Histories.{last_sent};
ghost use Rattle.sak_exchange.specs.declared.due.Seen.{Seen};
ghost use Rattle.sak_exchange.specs.declared.held_key.Key.{Key};
ghost use Rattle.sak_exchange.specs.Histories.{Keying, install_count};
ghost use Rattle.sak_exchange.specs.Held.{latest, old};
ghost use Rattle.server_election.specs.Election.{may_serve};
ghost use Rattle.mka_station.specs.Lives.{Member, Entry, ticked, heard, candidate, elected, keys_of, peers_of};
ghost use Rattle.mka_station.specs.Views.{View, view, serves};
ghost use Rattle.mka_station.specs.Announcing.{id_of, use_of, uses_of, announcement};
ghost use Rattle.mka_station.specs.Tick.{tick_turn};
ghost use Rattle.mka_station.specs.Hearing.{hear_turn, outcome_of, is_accepted};
ghost use Rattle.mka_station.specs.Restart.{ending};
ghost use Rattle.mka_station.specs.Dropped.{without_dropped};
ghost use Rattle.mka_station.specs.Listed.{IsLastHeard};
ghost use Rattle.mka_station.specs.Standing.{State, StandsFor, HasRoom};

/// Who is elected after a turn was elected at its tick, or when its announcement was heard: what is
/// sent, installed or begun then changes no election.
pub fn law_elected_stays()
    ensures ticked { (m : Member) (seen : Seen) (sak : Secret) (p : List Entry) →
        elected m (tick_turn m seen sak p).past ≡ elected m (ticked ∷ p) }
    ensures heard { (m : Member) (a : Announcement) (p : List Entry) →
        elected m (hear_turn m a p).past ≡ elected m (heard a ∷ p) }
{}

/// A SAK Use is there exactly where a key is held, and says of each of its two keys that it is
/// received exactly where that one is held.
pub fn law_uses_show_the_keys()
    ensures there { (lowest : Key → ℕ) (h : List Keying) →
        is_some (uses_of lowest h) ≡ (is_some (latest h) || is_some (old h)) }
    ensures received { (sending k : Option Key) (lowest : Key → ℕ) →
        (use_of sending lowest k).rx ≡ is_some k }
{}

/// What is said of a held key is marked as transmitting exactly where the key that transmits has
/// its identifier; what is said of none is not marked.
pub fn law_marks_what_transmits()
    ensures held { (sending : Option Key) (lowest : Key → ℕ) (k : Key) →
        IsTrue (use_of sending lowest (Some k)).tx ↔ (id_of sending ≡ Some k.id) }
    ensures none { (sending : Option Key) (lowest : Key → ℕ) →
        IsFalse (use_of sending lowest None).tx }
{}

/// An announcement has the key server flag exactly while its station serves, but that one which is
/// set up so, and may serve, has it also while it has elected nobody.
pub fn law_flags_the_server()
    ensures set_up { (m : Member) (lowest : Key → ℕ) (v : View) → m.setup.early_flag ≡ false →
        (announcement m lowest v).server ≡ serves m v }
    ensures never { (m : Member) (lowest : Key → ℕ) (v : View) →
        may_serve (candidate m) ≡ false → (announcement m lowest v).server ≡ serves m v }
    ensures elected { (m : Member) (lowest : Key → ℕ) (v : View) (server : Mi) →
        v.server ≡ Some server → (announcement m lowest v).server ≡ serves m v }
    ensures early { (m : Member) (lowest : Key → ℕ) (v : View) → m.setup.early_flag ≡ true →
        may_serve (candidate m) ≡ true → v.server ≡ None →
        IsTrue (announcement m lowest v).server }
{}

/// The key server flag is not read: an announcement with another one is heard alike.
pub fn law_no_flag_is_heard()
    ensures { (m : Member) (flag : Bool) (a : Announcement) (p : List Entry) →
        (hear_turn m (record a { server = flag }) p).reaction ≡ (hear_turn m a p).reaction }
{}

/// Each member that an announcement lists, as live or as potential, was heard in this life, and is
/// listed under the number of its last accepted announcement.
pub fn law_listed_was_heard()
    ensures live { (m : Member) (lowest : Key → ℕ) (p : List Entry) →
        All (IsLastHeard m p) (announcement m lowest (view m p)).live }
    ensures potential { (m : Member) (lowest : Key → ℕ) (p : List Entry) →
        All (IsLastHeard m p) (announcement m lowest (view m p)).potential }
{}

/// A station has room for one more install and announcement where its history can count them.
pub fn law_room()
    ensures { (m : Member) (s : State) (p : List Entry) → StandsFor m s p →
        (m.base + install_count (keys_of m p)) + 1 < 2 ^ 32 →
        last_sent (peers_of m p) + 1 < 2 ^ 32 →
        HasRoom s }
{}

/// A turn installs one key at most, and sends one announcement at most, under the next number.
pub fn law_turns_count()
    ensures ticked { (m : Member) (seen : Seen) (sak : Secret) (p : List Entry) →
        install_count (keys_of m (tick_turn m seen sak p).past) ≤ install_count (keys_of m p) + 1 }
    ensures sent { (m : Member) (seen : Seen) (sak : Secret) (p : List Entry) →
        last_sent (peers_of m (tick_turn m seen sak p).past) ≤ last_sent (peers_of m p) + 1 }
    ensures heard { (m : Member) (a : Announcement) (p : List Entry) →
        install_count (keys_of m (hear_turn m a p).past) ≤ install_count (keys_of m p) + 1 }
    ensures silent { (m : Member) (a : Announcement) (p : List Entry) →
        last_sent (peers_of m (hear_turn m a p).past) ≡ last_sent (peers_of m p) }
{}

/// An announcement that is dropped leaves all that the rules of a station see, but that it was
/// heard.
pub fn law_dropped_changes_no_view()
    ensures { (m : Member) (a : Announcement) (p : List Entry) →
        is_accepted (outcome_of m p a) ≡ false →
        view m (heard a ∷ p) ≡ record (view m p) { peers = peers_of m (heard a ∷ p) } }
{}

/// An announcement that was dropped changes no later answer: after every history a station ticks,
/// hears and ends as after that history without all that was dropped.
pub fn law_dropped_changes_no_answer()
    ensures ticked { (m : Member) (seen : Seen) (sak : Secret) (p : List Entry) →
        (tick_turn m seen sak (without_dropped m p)).reaction ≡ (tick_turn m seen sak p).reaction }
    ensures heard { (m : Member) (a : Announcement) (p : List Entry) →
        (hear_turn m a (without_dropped m p)).reaction ≡ (hear_turn m a p).reaction }
    ensures ended { (m : Member) (p : List Entry) → ending m (without_dropped m p) ≡ ending m p }
{}
