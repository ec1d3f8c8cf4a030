//! What the election's definition gives.

ghost use Rattle.std.specs.Prelude.{◌≡◌, ◌↔◌, ◌⊎◌, List, [], ◌∷◌, Some, None, All, Contains, IsPermutation};
ghost use Rattle.std.specs.declared.cmp.Ordering.TheVariants.{Equal};
ghost use Rattle.lan_base.specs.declared.address.Mi.{Mi};
ghost use Rattle.server_election.specs.declared.candidate.Candidate.{Candidate};
ghost use Rattle.server_election.specs.Election.{elected, eligible, never_serves, pair_cmp, IsLeast};

use crate::candidate::NEVER;

/// The priority that never serves is that of the definitions.
pub fn law_never_serves()
    ensures { NEVER ≡ never_serves }
{}

/// The elected server is one of those that may serve, and none of these has a smaller pair.
pub fn law_least()
    ensures { (own : Candidate) (live : List Candidate) (mi : Mi) → elected own live ≡ Some mi
        → (server : Candidate) × IsLeast server (eligible own live) × (server.mi ≡ mi) }
{}

/// Nobody is elected exactly where no peer is live or all have the priority that never serves.
pub fn law_none()
    ensures { (own : Candidate) (live : List Candidate) → (elected own live ≡ None)
        ↔ ((live ≡ []) ⊎ All (λ x. x.priority ≡ never_serves) (own ∷ live)) }
{}

/// Where equal pairs are of one identifier, the order of the peers doesn't matter.
pub fn law_order()
    ensures { (own : Candidate) (live others : List Candidate)
        → ((x y : Candidate) → Contains (own ∷ live) x → Contains (own ∷ live) y
        → pair_cmp x y ≡ Equal → x.mi ≡ y.mi)
        → IsPermutation live others → elected own live ≡ elected own others }
{}
