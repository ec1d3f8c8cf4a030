//! What holds of the peer lists after every history.

ghost use Rattle.std.specs.Prelude.{◌≡◌, ◌≢◌, ◌≤◌, ◌+◌, ◌++◌, ◌&&◌, ◌||◌, ◌∷◌, List, ℕ, Bool, Some, IsTrue, IsFalse, length, filter, is_some};
ghost use Rattle.std.specs.List.{find, list_any};
ghost use Rattle.lan_base.specs.declared.address.Mi.{Mi};
ghost use Rattle.mkpdu_codec.specs.declared.peer.Peer.{Peer};
ghost use Rattle.lan_base.specs.Identifiers.{same_mi, has, IsAscending};
ghost use Rattle.peer_lists.specs.Histories.{Peering, clock, is_tick, last_sent, may_send, IsCounted};
ghost use Rattle.peer_lists.specs.Acceptance.{Own, Accepted, accepted, is_young_of, young_numbers, greatest, first_number, most_peers};
ghost use Rattle.lan_base.specs.Falling.{IsFalling};
ghost use Rattle.peer_lists.specs.Peers.{says, hopes, known, lives, potentials, is_last_displaced, newer};
ghost use Rattle.peer_lists.specs.Listings.{listing};
ghost use Rattle.peer_lists.specs.Table.{Table, StandsFor};

use crate::PEERS;

/// The age of an entry, the difference of two tick counts, is the number of ticks that came after
/// it.
pub fn law_age_is_ticks()
    ensures { (later earlier : List Peering) →
        clock (later ++ earlier) ≡ length (filter is_tick later) + clock earlier }
{}

/// The numbers of a member's young accepted announcements fall, newest first: the greatest one is
/// the last one's.
pub fn law_kept_is_last()
    ensures falling { (own : Own) (h : List Peering) (m : Mi) →
        IsFalling (young_numbers (clock h) m (accepted own h)) }
    ensures greatest { (own : Own) (h : List Peering) (m : Mi) →
        let numbers = young_numbers (clock h) m (accepted own h) in
        greatest numbers ≡ first_number numbers }
{}

/// What came later than the last announcement that passes a test stands before it in the list, and
/// none of it passes.
pub fn law_newer_came_later()
    ensures { (test : Accepted → Bool) (past : List Accepted) (last : Accepted) →
        find test past ≡ Some last →
        (earlier : List Accepted) × (past ≡ newer test past ++ last ∷ earlier) ×
        IsTrue (test last) × IsFalse (list_any test (newer test past)) }
{}

/// The live members are those that say something, and the potential ones those that hope; no member
/// does both.
pub fn law_live_exactly_where_it_says()
    ensures live { (own : Own) (h : List Peering) (m : Mi) →
        has m (lives own h) ≡ is_some (says own h m) }
    ensures potential { (own : Own) (h : List Peering) (m : Mi) →
        has m (potentials own h) ≡ is_some (hopes own h m) }
    ensures apart { (own : Own) (h : List Peering) (m : Mi) →
        IsFalse (is_some (says own h m) && is_some (hopes own h m)) }
{}

/// A live or potential member is known, and a known one is live, potential or displaced.
pub fn law_known_is_live_potential_or_displaced()
    ensures live { (own : Own) (h : List Peering) (m : Mi) → IsTrue (is_some (says own h m)) →
        IsTrue (has m (known own h)) }
    ensures potential { (own : Own) (h : List Peering) (m : Mi) → IsTrue (is_some (hopes own h m)) →
        IsTrue (has m (known own h)) }
    ensures known { (own : Own) (h : List Peering) (m : Mi) → IsTrue (has m (known own h)) →
        IsTrue (is_some (says own h m) || (is_some (hopes own h m) || is_last_displaced own h m)) }
{}

/// The known members stand in ascending order, each once, and are those with an accepted
/// announcement younger than the life time.
pub fn law_known_is_ascending()
    ensures ascending { (own : Own) (h : List Peering) → IsAscending (known own h) }
    ensures whom { (own : Own) (h : List Peering) (m : Mi) →
        has m (known own h) ≡ list_any (is_young_of (clock h) m) (accepted own h) }
{}

/// At most one announcement was sent in each tick, and one before the first.
pub fn law_sent_is_at_most_the_clock_and_one()
    ensures sent { (h : List Peering) → IsCounted h → last_sent h ≤ clock h + 1 }
    ensures next { (h : List Peering) → IsCounted h → IsTrue (may_send h) → last_sent h ≤ clock h }
    ensures counted { (own : Own) (t : Table) (h : List Peering) → StandsFor own t h → IsCounted h }
{}

/// No more members are known at once than are remembered.
pub fn law_known_are_few()
    ensures places { PEERS ≡ most_peers }
    ensures known { (own : Own) (h : List Peering) → length (known own h) ≤ most_peers }
{}

/// No two live members have the same SCI, so no two have the same priority and SCI.
pub fn law_no_two_live_share_an_sci()
    ensures { (own : Own) (h : List Peering) (m n : Mi) (a b : Accepted) → says own h m ≡ Some a →
        says own h n ≡ Some b → a.told.sci ≡ b.told.sci → m ≡ n }
{}

/// No live member has the station's own identifier or SCI.
pub fn law_live_is_not_own()
    ensures mi { (own : Own) (h : List Peering) (m : Mi) (a : Accepted) → says own h m ≡ Some a →
        m ≢ own.mi }
    ensures sci { (own : Own) (h : List Peering) (m : Mi) (a : Accepted) → says own h m ≡ Some a →
        a.told.sci ≢ own.sci }
{}

/// An announcement whose listing is picked as the definition says is vouched exactly where one of
/// the pairs of its two lists names the member under a recent number.
pub fn law_vouched_is()
    ensures { (own : Mi) (recent : ℕ → Bool) (pairs : List Peer) →
        let l = listing own recent pairs in
        (l.lists && recent l.listed) ≡ list_any (λ p. same_mi p.mi own && recent p.mn) pairs }
{}
