//! Reading the SecTAG of a frame (IEEE Std 802.1AE, clause 9).

ghost use Rattle.std.specs.Prelude.{◌≡◌, ◌<◌, ◌≤◌, ◌+◌, ◌↔◌, length, Some, Ok, Err, IfOk};
ghost use Rattle.gcm_frames.specs.declared.tag.TagRefusal.{TagRefusal};
ghost use Rattle.gcm_frames.specs.Tags.{an_of, control_of, fields_or, has_flag, implied_fields, is_implied_mode, is_mode, is_sec, start_of, sci_of, refused, refused_in, tag_in, tag_fields};

use crate::protecting::LONG;
use crate::tag::{Tag, TagRefusal};
use byteorder::{BigEndian, ByteOrder};
use lan_base::{AssociationNumber, Sci};

/// The octet of control information, 0 where there is none.
fn control_of(frame: &[u8]) -> u8
    ensures { result ≡ control_of frame.now }
{
    if frame.len() > 14 { frame[14] } else { 0 }
}

/// Whether the octet of control information has a flag.
fn has_flag(flag: u8, frame: &[u8]) -> bool
    requires { 0 < flag }
    ensures { result ≡ has_flag flag frame.now }
{
    control_of(frame) / flag % 2 == 1
}

/// The flag V: another version of the SecTAG than the one that is read.
const VERSION: u8 = 0x80;

/// The flag ES: the sender is an end station, so its address and the port 1 are its SCI.
const END_STATION: u8 = 0x40;

/// The flag SC: the SecTAG has an SCI.
const EXPLICIT_SCI: u8 = 0x20;

/// The flag SCB: the frame is of the single copy broadcast channel.
const BROADCAST: u8 = 0x10;

/// The flag E: the user data are enciphered.
const ENCIPHERED: u8 = 0x08;

/// The flag C: the user data differ from those that were given.
const CHANGED: u8 = 0x04;

/// The two bits of the association number, that of greater value first.
const AN_HIGH: u8 = 0x02;

const AN_LOW: u8 = 0x01;

/// The association number.
fn an_of(frame: &[u8]) -> AssociationNumber
    requires { 14 < length frame.now }
    ensures { result ≡ an_of frame.now }
{
    AssociationNumber::of_bits(has_flag(AN_HIGH, frame), has_flag(AN_LOW, frame))
}

/// Whether the frame has the EtherType of MACsec behind its addresses.
pub fn is_sec(frame: &[u8]) -> bool
    ensures { result ≡ is_sec frame.now }
{
    frame.len() >= 14 && frame[12] == 0x88 && frame[13] == 0xe5
}

/// Whether the flags are those of a mode that is read.
fn is_mode(frame: &[u8]) -> bool
    ensures { result ≡ is_mode frame.now }
{
    !has_flag(BROADCAST, frame)
        && has_flag(END_STATION, frame) != has_flag(EXPLICIT_SCI, frame)
        && has_flag(ENCIPHERED, frame) == has_flag(CHANGED, frame)
}

/// Whether they are, where the SCI may be implied.
fn is_implied_mode(frame: &[u8]) -> bool
    ensures { result ≡ is_implied_mode frame.now }
{
    !(has_flag(EXPLICIT_SCI, frame) && (has_flag(END_STATION, frame) || has_flag(BROADCAST, frame)))
        && has_flag(ENCIPHERED, frame) == has_flag(CHANGED, frame)
}

/// The octet at which the secure data starts.
fn start_of(frame: &[u8]) -> usize
    requires { 14 < length frame.now }
    ensures { result ≡ start_of frame.now }
{
    if has_flag(EXPLICIT_SCI, frame) {
        28
    } else {
        20
    }
}

/// The sender's SCI: that of the SecTAG, or the source address with port 1.
fn sci_of(frame: &[u8]) -> Sci
    requires { 28 ≤ length frame.now }
    ensures { result ≡ sci_of frame.now }
{
    if has_flag(EXPLICIT_SCI, frame) {
        let (_, behind) = frame.split_at(20);
        let (sci, _) = behind.split_first_chunk::<8>().unwrap();
        return Sci(*sci);
    }
    let (_, behind) = frame.split_at(6);
    let (source, _) = behind.split_first_chunk::<6>().unwrap();
    let [a, b, c, d, e, f] = *source;
    Sci([a, b, c, d, e, f, 0, 1])
}

/// The fields of a frame, or the first refusal. One of ES and SC is set.
#[tactic(auto, unfolding(crate::specs::Tags::tag_fields))]
pub fn tag_of(frame: &[u8]) -> Result<Tag, TagRefusal>
    ensures refused { (e : TagRefusal) → (result ≡ Err e) ↔ (refused frame.now ≡ Some e) }
    ensures tag { IfOk result (λ tag. tag ≡ tag_in frame.now) }
    ensures exact { result ≡ tag_fields frame.now }

    // The secure data and the tag lie in the frame.
    ensures within { IfOk result (λ tag. tag.start + tag.len + 16 ≤ length frame.now) }
{
    fields_of(is_mode(frame), frame)
}

/// The fields of a frame whose SCI may be implied, or the first refusal: where SC isn't set, the SCI is
/// the sender's address with port 1, also of a frame of the single copy broadcast channel.
#[tactic(auto, unfolding(crate::specs::Tags::implied_fields))]
pub fn implied_tag_of(frame: &[u8]) -> Result<Tag, TagRefusal>
    ensures exact { result ≡ implied_fields frame.now }

    // The secure data and the tag lie in the frame.
    ensures within { IfOk result (λ tag. tag.start + tag.len + 16 ≤ length frame.now) }
{
    fields_of(is_implied_mode(frame), frame)
}

/// The fields of a frame whose mode is read or not, or the first refusal.
fn fields_of(is_mode: bool, frame: &[u8]) -> Result<Tag, TagRefusal>
    ensures fields { result ≡ fields_or (refused_in is_mode frame.now) frame.now }
    ensures within { IfOk result (λ tag. tag.start + tag.len + 16 ≤ length frame.now) }
{
    if !is_sec(frame) {
        return Err(TagRefusal::NotSec);
    }
    if frame.len() < 15 {
        return Err(TagRefusal::Short);
    }
    if has_flag(VERSION, frame) {
        return Err(TagRefusal::Version);
    }
    if !is_mode {
        return Err(TagRefusal::Mode);
    }
    let start = start_of(frame);
    if frame.len() < start + 16 {
        return Err(TagRefusal::Short);
    }
    let short = frame[15] as usize;
    if frame.len() < start + short + 16 {
        return Err(TagRefusal::Short);
    }
    if short >= LONG || short == 0 && frame.len() < start + LONG + 16 {
        return Err(TagRefusal::SlWrong);
    }
    Ok(Tag {
        sci: sci_of(frame),
        an: an_of(frame),
        pn: BigEndian::read_u32(&frame[16..]),
        conf: has_flag(ENCIPHERED, frame),
        start,
        len: if short == 0 {
            frame.len() - (start + 16)
        } else {
            short
        },
    })
}
