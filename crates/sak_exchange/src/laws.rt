//! What holds of the keys after every history.

ghost use Rattle.std.specs.Prelude.{◌≡◌, ◌≢◌, ◌≤◌, ◌<◌, ◌+◌, ◌++◌, ◌∷◌, ◌↔◌, ℕ, List, Option, Some, None, true, IsTrue, IsFalse, is_some, length};
ghost use Rattle.aes_block.specs.Aes.{IsKey, IsOctets};
ghost use Rattle.key_wrap.specs.Wrap.{wrapped};
ghost use Rattle.lan_base.specs.declared.address.Mi.{Mi};
ghost use Rattle.lan_base.specs.Falling.{IsFalling};
ghost use Rattle.sak_exchange.specs.declared.held_key.Key.{Key};
ghost use Rattle.sak_exchange.specs.Histories.{Keying, ticked, installed, clock, last_key, begun_at, has_begun, beginnings};
ghost use Rattle.sak_exchange.specs.Held.{KeepsRules, received, latest, old, transmitting};
ghost use Rattle.sak_exchange.specs.Beginning.{retired};
ghost use Rattle.sak_exchange.specs.Making.{is_used, next_an};
ghost use Rattle.sak_exchange.specs.Unwrapping.{unwrapped};
ghost use Rattle.lan_base.specs.Differing.{AllDiffer};
ghost use Rattle.sak_exchange.specs.Lives.{Has, IsReceived, both, apart, IsQuiet, IsFresh, IsNumbered, TakesNoneOfOwn, epochs, numbers_of, identifiers};

use key_wrap::law_one_key_for_one_wrap;

/// A key is received exactly where it was installed and no entry that came since ends it.
pub fn law_received_is()
    ensures { (h : List Keying) (k : Key) → Has k (received h) ↔ IsReceived h k }
{}

/// At most two keys are received: the latest one, which is the key installed last, and the old one.
pub fn law_at_most_two_are_received()
    ensures both { (base : ℕ) (h : List Keying) → KeepsRules base h
        → received h ≡ both (latest h) (old h) }
    ensures most { (base : ℕ) (h : List Keying) → KeepsRules base h → length (received h) ≤ 2 }
    ensures last { (base : ℕ) (h : List Keying) (l : Key) → KeepsRules base h → latest h ≡ Some l →
        last_key h ≡ Some l }
    ensures beside { (base : ℕ) (h : List Keying) (o : Key) → KeepsRules base h → old h ≡ Some o →
        IsTrue (is_some (latest h)) }
{}

/// The old key has begun; of the keys after it only the latest may have, and none after that.
pub fn law_an_old_key_has_begun()
    ensures old { (base : ℕ) (h : List Keying) (o : Key) → KeepsRules base h → old h ≡ Some o →
        IsTrue (has_begun h o.epoch) }
    ensures after { (base : ℕ) (h : List Keying) (o : Key) (e : ℕ) → KeepsRules base h → old h ≡ Some o →
        IsTrue (has_begun h e) → o.epoch < e → (l : Key) × (latest h ≡ Some l) × (l.epoch ≡ e) }
    ensures latest { (base : ℕ) (h : List Keying) (l : Key) (e : ℕ) → KeepsRules base h
        → latest h ≡ Some l →
        IsTrue (has_begun h e) → e ≤ l.epoch }
{}

/// The latest key and the old one have different association numbers.
pub fn law_two_keys_have_two_numbers()
    ensures { (base : ℕ) (h : List Keying) (l o : Key) → KeepsRules base h → latest h ≡ Some l
        → old h ≡ Some o →
        l.an ≢ o.an }
{}

/// The epochs of the keys that begin rise, so that each begins at most once; and what has begun
/// stays begun.
pub fn law_begun_epochs_rise()
    ensures fall { (base : ℕ) (h : List Keying) → KeepsRules base h → IsFalling (beginnings h) }
    ensures stay { (new earlier : List Keying) (e : ℕ) → IsTrue (has_begun earlier e) →
        IsTrue (has_begun (new ++ earlier) e) }
{}

/// While nothing is installed and a key server stays elected, the latest key is received and stays
/// the latest one; nothing else comes to be received.
pub fn law_the_latest_key_is_received()
    ensures latest { (base : ℕ) (new earlier : List Keying) (l : Key) → KeepsRules base (new ++ earlier) →
        IsQuiet new → latest earlier ≡ Some l → latest (new ++ earlier) ≡ Some l }
    ensures nothing_else { (new earlier : List Keying) (k : Key) → IsQuiet new →
        Has k (received (new ++ earlier)) → Has k (received earlier) }
{}

/// While nothing is installed and a key server stays elected, the old key is received and stays the
/// old one until the latest one began the retire time ago.
pub fn law_the_old_key_is_received()
    ensures { (base : ℕ) (new earlier : List Keying) (l o : Key) → KeepsRules base (new ++ earlier) →
        IsQuiet new → latest earlier ≡ Some l → old earlier ≡ Some o →
        IsFresh (clock (new ++ earlier)) (begun_at (new ++ earlier) l.epoch) →
        old (new ++ earlier) ≡ Some o }
{}

/// The latest key transmits once it has begun, and the old one until then.
pub fn law_transmitting_is()
    ensures begun { (base : ℕ) (h : List Keying) (l : Key) → KeepsRules base h → latest h ≡ Some l →
        IsTrue (has_begun h l.epoch) → transmitting h ≡ Some l }
    ensures unbegun { (base : ℕ) (h : List Keying) (l : Key) → KeepsRules base h → latest h ≡ Some l →
        IsFalse (has_begun h l.epoch) → transmitting h ≡ old h }
    ensures none { (base : ℕ) (h : List Keying) → KeepsRules base h → latest h ≡ None
        → transmitting h ≡ None }
{}

/// After an install the new key is the latest one, and the key that transmitted is the old one, if
/// its association number is another.
pub fn law_an_install_leaves_what_transmits()
    ensures latest { (base : ℕ) (h : List Keying) (r : Option (List Mi)) (k : Key) →
        KeepsRules base (installed r k ∷ h) → latest (installed r k ∷ h) ≡ Some k }
    ensures old { (base : ℕ) (h : List Keying) (r : Option (List Mi)) (k : Key) →
        KeepsRules base (installed r k ∷ h) → old (installed r k ∷ h) ≡ apart k.an (transmitting h) }
{}

/// At a tick with an elected server the latest key stays, and the old one is what is left where it
/// is not retired.
pub fn law_a_tick_retires()
    ensures latest { (base : ℕ) (h : List Keying) → KeepsRules base h
        → latest (ticked true ∷ h) ≡ latest h }
    ensures retired { (base : ℕ) (h : List Keying) (o : Key) → KeepsRules base h → retired h ≡ Some o →
        old (ticked true ∷ h) ≡ None }
    ensures kept { (base : ℕ) (h : List Keying) → KeepsRules base h → retired h ≡ None →
        old (ticked true ∷ h) ≡ old h }
{}

/// The association number of the next key that is made is that of no held key.
pub fn law_the_next_number_is_free()
    ensures { (base : ℕ) (h : List Keying) → KeepsRules base h → IsFalse (is_used h (next_an h)) }
{}

/// The epochs of the keys that a life installs rise.
pub fn law_epochs_rise()
    ensures { (base : ℕ) (h : List Keying) → KeepsRules base h → IsFalling (epochs h) }
{}

/// The numbers of the keys of one key server that a life installs rise, and no two of its keys have
/// one identifier, where none with the station's own identifier was taken.
pub fn law_key_numbers_rise()
    ensures numbers { (own server : Mi) (h : List Keying) → IsNumbered own h
        → TakesNoneOfOwn own h →
        IsFalling (numbers_of server h) }
    ensures identifiers { (own : Mi) (h : List Keying) → IsNumbered own h → TakesNoneOfOwn own h →
        AllDiffer (identifiers h) }
{}

/// The key that an unwrapping answers is the one whose wrap was given.
pub fn law_unwrapped_is_the_key()
    ensures { (count : ℕ) (kek octets key : List ℕ) → IsKey kek → 8 ≤ count →
        ((unwrapped count kek octets ≡ Some key)
        ↔ (IsOctets count key × (wrapped kek key ≡ octets))) }
{
    law_one_key_for_one_wrap();
}
