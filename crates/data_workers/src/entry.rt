//! What comes of one job.

ghost use Rattle.std.specs.Prelude.{◌≡◌, ◌+◌, ◌≤◌, [], length, vec_capacity, IfOk};
ghost use Rattle.data_workers.specs.Entries.{entry_of, taken_by};
ghost use Rattle.gcm_frames.specs.Protected.{protection_octets};
ghost use Rattle.lan_base.specs.Ranges.{IsUserData};

use crate::prepared::{PreparedKey, key_for};
use crate::sender::Sender;
use gcm_frames::protect;
use lan_base::{Octets, Protected};
use packet_claims::{Claim, NoClaim};

/// What came of one job: the sender's frame, protected under a claim, or the reason for which its
/// station has no claim.
#[derive(Debug, Drop)]
pub enum Entry {
    Taken(Protected),
    Refused { station: u8, why: NoClaim },
}

/// The entry of a claim's answer. A frame is written where there is room for it, under the key that
/// was prepared last or, where the claim's card has another SAK, a new one.
pub(crate) fn entry_for(
    sender: &Sender,
    answer: Result<Claim, NoClaim>,
    room: Vec<u8>,
    last: &mut Option<PreparedKey>,
) -> Entry
    requires first { IfOk answer (λ k. 1 ≤ k.pn) }
    requires user { IsUserData sender.now.user.body }
    requires room { (room.items ≡ [])
        × (length sender.now.user.body + protection_octets ≤ vec_capacity room) }
    ensures { result ≡ entry_of sender.now answer }
{
    match answer {
        Ok(claim) => Entry::Taken(protected_frame(sender, claim, room, last)),
        Err(why) => Entry::Refused {
            station: sender.station,
            why,
        },
    }
}

/// The sender's frame, protected under a claim and its card.
fn protected_frame(
    sender: &Sender,
    claim: Claim,
    mut room: Vec<u8>,
    last: &mut Option<PreparedKey>,
) -> Protected
    requires first { 1 ≤ claim.pn }
    requires user { IsUserData sender.now.user.body }
    requires room { (room.items ≡ [])
        × (length sender.now.user.body + protection_octets ≤ vec_capacity room) }
    ensures { result ≡ taken_by sender.now claim }
{
    protect(
        key_for(last, claim.card.sak),
        sender.sci,
        claim.an,
        claim.pn,
        claim.card.conf,
        &sender.user,
        &mut room,
    );
    Protected {
        station: sender.station,
        an: claim.an,
        epoch: claim.epoch,
        pn: claim.pn,
        octets: Octets::of(room),
    }
}
