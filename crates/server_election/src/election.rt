//! Who is elected.

ghost use Rattle.std.specs.Prelude.{◌≡◌, List, [], ◌∷◌, ◌++◌, filter, option_to_list, Some};
ghost use Rattle.server_election.specs.declared.candidate.Candidate.{Candidate};
ghost use Rattle.server_election.specs.Election.{elected, first_of, least, may_serve};

use crate::Candidate;
use lan_base::Mi;

/// The server that a station elects: the least pair of priority and SCI among itself and its live
/// peers, without those of priority 255. Of equal pairs its own comes first, and then the peers' in
/// their order. `None` where no peer is live or nobody may serve.
pub fn elect(own: &Candidate, live: &[Candidate]) -> Option<Mi>
    ensures { result ≡ elected own.now live.now }
{
    if live.is_empty() {
        return None;
    }
    let mut best = better(None, own);
    for candidate in live {
        best = better(best, candidate);
    }
    best.map(|server| server.mi)
}

/// The best so far with one candidate more.
fn better(best: Option<Candidate>, next: &Candidate) -> Option<Candidate>
    // It stands for both, whoever comes later.
    ensures { (later : List Candidate) → least (option_to_list result ++ later)
        ≡ least (option_to_list best ++ filter may_serve (next.now ∷ []) ++ later) }
{
    if !next.may_serve() {
        return best;
    }
    match best {
        None => Some(*next),
        Some(best) => Some(first_of(best, next)),
    }
}

/// The first, unless the next one has a smaller pair.
fn first_of(best: Candidate, next: &Candidate) -> Candidate
    ensures { result ≡ first_of best (Some next.now) }
{
    if next.precedes(&best) { *next } else { best }
}
