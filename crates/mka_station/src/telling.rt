//! What an announcement tells a member.

ghost use Rattle.std.specs.Prelude.{◌≡◌, ◌&&◌, List, Some, None, unwrap_or, if◌then◌else◌};
ghost use Rattle.std.specs.Option.{option_or};
ghost use Rattle.peer_lists.specs.Acceptance.{first_number};
ghost use Rattle.std.specs.List.{find, list_any};
ghost use Rattle.lan_base.specs.Identifiers.{same_mi};
ghost use Rattle.peer_lists.specs.Acceptance.{Own};
ghost use Rattle.peer_lists.specs.Histories.{Peering, recent};
ghost use Rattle.peer_lists.specs.Listings.{numbers_of};
ghost use Rattle.peer_lists.specs.Table.{StandsFor};
ghost use Rattle.mka_station.specs.Lives.{told};

use lan_base::Mi;
use mkpdu_codec::{Announcement, Peer};
use peer_lists::{Heard, PeerTable};

/// The message numbers under which a member is named: the first one, and the first one that was
/// sent less than the life time ago.
#[derive(Clone, Copy)]
struct Naming {
    first: Option<u32>,
    recent: Option<u32>,
}

/// What an announcement tells a member that has these peer lists.
pub fn told(mi: &Mi, peers: &PeerTable, announcement: &Announcement) -> Heard
    ensures { (own : Own) (h : List Peering) → StandsFor own peers.now h →
        result ≡ told mi.now (recent h) announcement.now }
{
    let none = Naming {
        first: None,
        recent: None,
    };
    let live = named(none, mi, peers, announcement.live.as_slice());
    let naming = named(live, mi, peers, announcement.potential.as_slice());
    Heard {
        mi: announcement.mi,
        sci: announcement.sci,
        priority: announcement.priority,
        mn: announcement.mn,
        lists: naming.first.is_some(),
        listed: listed_under(naming.recent, naming.first),
        uses: announcement.uses,
    }
}

/// The number that counts: the first recent one, else the first.
fn listed_under(recent: Option<u32>, first: Option<u32>) -> u32
    ensures { result ≡ unwrap_or (option_or recent first) 0 }
{
    match (recent, first) {
        (Some(number), _) | (None, Some(number)) => number,
        (None, None) => 0,
    }
}

/// A naming, with the numbers under which these pairs name the member where it lacks them.
fn named(before: Naming, mi: &Mi, peers: &PeerTable, pairs: &[Peer]) -> Naming
    ensures first { result.first
        ≡ option_or before.first (first_number (numbers_of mi.now pairs.now)) }
    ensures recent { (own : Own) (h : List Peering) → StandsFor own peers.now h →
        result.recent ≡ option_or before.recent (find (recent h) (numbers_of mi.now pairs.now)) }
{
    let mut naming = before;
    for pair in pairs {
        if pair.mi == *mi {
            naming = named_under(naming, pair.mn, peers);
        }
    }
    naming
}

/// A naming, with this number where it lacks one.
fn named_under(before: Naming, mn: u32, peers: &PeerTable) -> Naming
    ensures first { result.first ≡ option_or before.first (Some mn) }
    ensures recent { (own : Own) (h : List Peering) → StandsFor own peers.now h →
        result.recent ≡ option_or before.recent (if recent h mn then Some mn else None) }
{
    Naming {
        first: before.first.or(Some(mn)),
        recent: match before.recent {
            None if peers.recent(mn) => Some(mn),
            kept => kept,
        },
    }
}

/// Whether one of these pairs names a member under a number that was sent less than the life time
/// ago.
pub fn is_listed(mi: &Mi, peers: &PeerTable, pairs: &[Peer]) -> bool
    ensures { (own : Own) (h : List Peering) → StandsFor own peers.now h →
        result ≡ list_any (λ peer. same_mi peer.mi mi.now && recent h peer.mn) pairs.now }
{
    for pair in pairs {
        if is_listing(mi, peers, pair) {
            return true;
        }
    }
    false
}

/// Whether this pair does so.
fn is_listing(mi: &Mi, peers: &PeerTable, pair: &Peer) -> bool
    ensures { (own : Own) (h : List Peering) → StandsFor own peers.now h →
        result ≡ (same_mi pair.now.mi mi.now && recent h pair.now.mn) }
{
    pair.mi == *mi && peers.recent(pair.mn)
}
