//! What a station makes of the rows of its peer lists.

ghost use Rattle.std.specs.Prelude.{◌≡◌, ◌≤◌, List, length, map, vec_capacity, IfOk};
ghost use Rattle.std.specs.List.{list_any};
ghost use lib.Pointwise.{pointwise};
ghost use Rattle.lan_base.specs.Identifiers.{same_mi};
ghost use Rattle.mka_station.specs.Views.{is_server};
ghost use Rattle.server_election.specs.Election.{elected};
ghost use Rattle.mka_station.specs.inside.Rows.{live_rows, potential_rows, report_of, candidate_in, peer_in};

use lan_base::Mi;
use mkpdu_codec::{Peer, Peers};
use peer_lists::Row;
use sak_exchange::Report;
use server_election::{Candidate, elect};
use std::alloc::{AllocError, Global};

/// What the live members say of their keys, in place of what the vector has. There is room for it.
pub fn note_reports(reports: &mut Vec<Report>, rows: &[Row])
    requires { length rows.now ≤ vec_capacity reports.old }
    ensures reports { reports.new.items ≡ map report_of (live_rows rows.now) }
    ensures capacity { vec_capacity reports.new ≡ vec_capacity reports.old }
{
    reports.clear();
    for row in rows {
        if row.live {
            reports.push_reserved(Report {
                mi: row.mi,
                uses: row.uses,
            });
        }
    }
}

/// The live members as candidates, in place of what the vector has. There is room for them.
fn note_candidates(candidates: &mut Vec<Candidate>, rows: &[Row])
    requires { length rows.now ≤ vec_capacity candidates.old }
    ensures candidates { candidates.new.items ≡ map candidate_in (live_rows rows.now) }
    ensures capacity { vec_capacity candidates.new ≡ vec_capacity candidates.old }
{
    candidates.clear();
    for row in rows {
        if row.live {
            candidates.push_reserved(Candidate {
                mi: row.mi,
                sci: row.sci,
                priority: row.priority,
            });
        }
    }
}

/// The live members.
pub fn live_members(alloc: Global, rows: &[Row]) -> Result<Vec<Mi>, AllocError>
    ensures { IfOk result (λ members. members.items ≡ map (λ r. r.mi) (live_rows rows.now)) }
{
    let mut members = Vec::with_capacity(alloc, rows.len())?;
    for row in rows {
        if row.live {
            members.push(row.mi)?;
        }
    }
    Ok(members)
}

/// The potential members.
pub fn potential_members(alloc: Global, rows: &[Row]) -> Result<Vec<Mi>, AllocError>
    ensures { IfOk result (λ members. members.items ≡ map (λ r. r.mi) (potential_rows rows.now)) }
{
    let mut members = Vec::new(alloc);
    for row in rows {
        if row.potential {
            members.push(row.mi)?;
        }
    }
    Ok(members)
}

/// Whether a member is potential.
pub fn is_one_potential(rows: &[Row]) -> bool
    ensures { result ≡ list_any (λ r. r.potential) rows.now }
{
    rows.iter().any(|row| row.potential)
}

/// The entries of the live members in a peer list.
pub fn live_peers(alloc: Global, rows: &[Row]) -> Result<Peers, AllocError>
    ensures value { IfOk result (λ peers. peers ≡ map peer_in (live_rows rows.now)) }
    ensures few { IfOk result (λ peers. length peers ≤ length rows.now) }
{
    let mut peers = Peers::new(alloc);
    for row in rows {
        if row.live {
            peers.push(Peer {
                mi: row.mi,
                mn: row.mn,
            })?;
        }
    }
    Ok(peers)
}

/// The entries of the potential members in a peer list.
pub fn potential_peers(alloc: Global, rows: &[Row]) -> Result<Peers, AllocError>
    ensures value { IfOk result (λ peers. peers ≡ map peer_in (potential_rows rows.now)) }
    ensures few { IfOk result (λ peers. length peers ≤ length rows.now) }
{
    let mut peers = Peers::new(alloc);
    for row in rows {
        if row.potential {
            peers.push(Peer {
                mi: row.mi,
                mn: row.mn,
            })?;
        }
    }
    Ok(peers)
}

/// The server that a station elects among itself and the live members. There is room for these.
pub fn elected(candidates: &mut Vec<Candidate>, own: &Candidate, rows: &[Row]) -> Option<Mi>
    requires { length rows.now ≤ vec_capacity candidates.old }
    ensures server { result ≡ elected own.now (map candidate_in (live_rows rows.now)) }
    ensures capacity { vec_capacity candidates.new ≡ vec_capacity candidates.old }
{
    note_candidates(candidates, rows);
    elect(own, candidates)
}

/// Whether these are the live members.
pub fn are_live(members: &[Mi], rows: &[Row]) -> bool
    ensures { result ≡ pointwise same_mi (map (λ r. r.mi) (live_rows rows.now)) members.now }
{
    let mut at = 0;
    for row in rows {
        if row.live {
            if at >= members.len() || row.mi != members[at] {
                return false;
            }
            at += 1;
        }
    }
    at == members.len()
}

/// Whether these are the potential members.
pub fn are_potential(members: &[Mi], rows: &[Row]) -> bool
    ensures { result ≡ pointwise same_mi (map (λ r. r.mi) (potential_rows rows.now)) members.now }
{
    let mut at = 0;
    for row in rows {
        if row.potential {
            if at >= members.len() || row.mi != members[at] {
                return false;
            }
            at += 1;
        }
    }
    at == members.len()
}

/// Whether a member is the server.
pub fn is_server(server: Option<Mi>, mi: &Mi) -> bool
    ensures { result ≡ is_server server mi.now }
{
    match server {
        Some(server) => server == *mi,
        None => false,
    }
}
