//! A live line is written.

ghost use Rattle.std.specs.Prelude.{◌≡◌, ◌++◌, OnOk, OnErr};
ghost use Rattle.trace_text.specs.Appending.{Grew};
ghost use Rattle.member_text.specs.declared.live.Live.TheVariants.{Peer, Channel, Key, Withheld, Receive};
ghost use Rattle.member_text.specs.Live.{live_line, state_text, channel_text, why_text, further};

use crate::live::{ChannelState, Live, PeerState, Withholding};
use lan_base::{AssociationNumber, Mi, Name, Sci};
use std::alloc::AllocError;
use trace_text::{Word, put_words};

/// Appends a live line of a station, with its line feed. An `Err` leaves what was there.
pub fn write_live(into: &mut Vec<u8>, name: &Name, live: &Live) -> Result<(), AllocError>
    ensures ok { OnOk result (into.new.items ≡ into.old.items ++ live_line name.now live.now) }
    ensures err { OnErr result (into.new.items ≡ into.old.items) }
{
    let start = into.len();
    let result = put_line(into, name, live);
    if result.is_err() {
        into.truncate(start);
    }
    result
}

/// Appends a live line. An `Err` leaves what was there, and may leave a front of the line behind it, as in
/// the functions behind this one.
#[tactic(auto, unfolding(crate::specs::Live::live_text))]
fn put_line(into: &mut Vec<u8>, name: &Name, live: &Live) -> Result<(), AllocError>
    ensures ok { OnOk result (into.new.items ≡ into.old.items ++ live_line name.now live.now) }
    ensures err { OnErr result (Grew into.old.items into.new.items) }
{
    into.extend_from_slice(b"live")?;
    put_words(into, &[Word::Name(name)])?;
    put_live(into, live)?;
    into.push(b'\n')?;
    Ok(())
}

/// Appends the words behind a station's name.
fn put_live(into: &mut Vec<u8>, live: &Live) -> Result<(), AllocError>
    ensures ok { OnOk result (into.new.items ≡ into.old.items ++ further live.now) }
    ensures err { OnErr result (Grew into.old.items into.new.items) }
{
    match live {
        Live::Peer { mi, sci, state } => put_peer(into, mi, sci, *state),
        Live::Channel { sci, state } => put_channel(into, sci, *state),
        Live::Key {
            an,
            epoch,
            confidential,
        } => put_key(into, *an, *epoch, *confidential),
        Live::Withheld { an, epoch, why } => put_withheld(into, *an, *epoch, *why),
        Live::Receive { sci, an } => put_receive(into, sci, *an),
        Live::Done => put_words(into, &[Word::Text(b"done")]),
    }
}

/// Appends what the peer lists say of a member.
fn put_peer<'a>(
    into: &mut Vec<u8>,
    mi: &'a Mi,
    sci: &'a Sci,
    state: PeerState,
) -> Result<(), AllocError>
    ensures ok { OnOk result (into.new.items ≡ into.old.items ++ further (Peer mi.now sci.now state)) }
    ensures err { OnErr result (Grew into.old.items into.new.items) }
{
    let words = [
        Word::Text(b"peer"),
        Word::Octets(&mi.0),
        Word::Octets(&sci.0),
        Word::Text(state_text(state)),
    ];
    put_words(into, &words)
}

/// Appends what becomes of a channel.
fn put_channel(into: &mut Vec<u8>, sci: &Sci, state: ChannelState) -> Result<(), AllocError>
    ensures ok { OnOk result (into.new.items ≡ into.old.items ++ further (Channel sci.now state)) }
    ensures err { OnErr result (Grew into.old.items into.new.items) }
{
    let words = [
        Word::Text(b"channel"),
        Word::Octets(&sci.0),
        Word::Text(channel_text(state)),
    ];
    put_words(into, &words)
}

/// Appends that the data path may have a key.
fn put_key(
    into: &mut Vec<u8>,
    an: AssociationNumber,
    epoch: u32,
    confidential: bool,
) -> Result<(), AllocError>
    ensures ok { OnOk result (into.new.items ≡ into.old.items ++ further (Key an epoch confidential)) }
    ensures err { OnErr result (Grew into.old.items into.new.items) }
{
    let words = [
        Word::Text(b"key an"),
        Word::Number(u64::from(an.number())),
        Word::Text(b"epoch"),
        Word::Number(u64::from(epoch)),
        Word::Text(b"conf"),
        Word::Number(u64::from(confidential)),
    ];
    put_words(into, &words)
}

/// Appends that it must not have a key.
fn put_withheld(
    into: &mut Vec<u8>,
    an: AssociationNumber,
    epoch: u32,
    why: Withholding,
) -> Result<(), AllocError>
    ensures ok { OnOk result (into.new.items ≡ into.old.items ++ further (Withheld an epoch why)) }
    ensures err { OnErr result (Grew into.old.items into.new.items) }
{
    let words = [
        Word::Text(b"withheld an"),
        Word::Number(u64::from(an.number())),
        Word::Text(b"epoch"),
        Word::Number(u64::from(epoch)),
        Word::Text(why_text(why)),
    ];
    put_words(into, &words)
}

/// Appends that an association is made.
fn put_receive(into: &mut Vec<u8>, sci: &Sci, an: AssociationNumber) -> Result<(), AllocError>
    ensures ok { OnOk result (into.new.items ≡ into.old.items ++ further (Receive sci.now an)) }
    ensures err { OnErr result (Grew into.old.items into.new.items) }
{
    let words = [
        Word::Text(b"receive"),
        Word::Octets(&sci.0),
        Word::Text(b"an"),
        Word::Number(u64::from(an.number())),
    ];
    put_words(into, &words)
}

/// How a state of the peer lists is spelled.
fn state_text(state: PeerState) -> &'static [u8]
    ensures { result.now ≡ state_text state }
{
    match state {
        PeerState::Live => b"live",
        PeerState::Potential => b"potential",
        PeerState::Gone => b"gone",
    }
}

/// How what becomes of a channel is spelled.
fn channel_text(state: ChannelState) -> &'static [u8]
    ensures { result.now ≡ channel_text state }
{
    match state {
        ChannelState::Add => b"add",
        ChannelState::Full => b"full",
        ChannelState::Remove => b"remove",
    }
}

/// How it is spelled why a key is withheld.
fn why_text(why: Withholding) -> &'static [u8]
    ensures { result.now ≡ why_text why }
{
    match why {
        Withholding::Used => b"used",
        Withholding::Suite => b"suite",
    }
}
