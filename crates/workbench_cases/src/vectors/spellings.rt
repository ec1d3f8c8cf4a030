//! Vectors of MKA frames.

ghost use Rattle.std.specs.Prelude.{IsTrue};
ghost use Rattle.mkpdu_codec.specs.Written.{IsWritable};

use crate::vectors::answers::{Digits, digits_of, refused};
use crate::vectors::fault::VectorFault;
use crate::vectors::octets::octets_of;
use lan_base::is_ckn;
use mkpdu_codec::{
    Announcement, ConfidentialityOffset, Given, KeyUse, Peers, ReadError, Refusal, Spelled, Uses,
    WrappedKey, read, write,
};
use std::alloc::Global;
use std::fmt;

/// What a frame spells, or its first refusal.
pub fn tell(alloc: Global, words: &[&str]) -> Result<String, VectorFault> {
    match spelled_of(alloc, words)? {
        Ok(spelled) => Ok(format!(in alloc; "{}", Told(&spelled))?),
        Err(refusal) => refused(alloc, &refusal),
    }
}

/// What is written of what a frame spells, which has no check value yet.
pub fn rewrite(alloc: Global, words: &[&str]) -> Result<String, VectorFault> {
    match spelled_of(alloc, words)? {
        Ok(spelled) => written(alloc, &spelled.announcement),
        Err(refusal) => refused(alloc, &refusal),
    }
}

/// What the frame of a vector spells, or its first refusal.
fn spelled_of(alloc: Global, words: &[&str]) -> Result<Result<Spelled, Refusal>, VectorFault> {
    let [frame] = words else {
        return Err(VectorFault::Words);
    };
    match read(alloc, &octets_of(alloc, frame)?) {
        Ok(spelled) => Ok(Ok(spelled)),
        Err(ReadError::Refused(refusal)) => Ok(Err(refusal)),
        Err(ReadError::Memory) => Err(VectorFault::Memory),
    }
}

/// What is written of an announcement.
fn written(alloc: Global, announcement: &Announcement) -> Result<String, VectorFault> {
    if !is_writable(announcement) {
        return refused(alloc, &"no such announcement is written");
    }
    let mut frame = Vec::new(alloc);
    write(announcement, &mut frame)?;
    digits_of(alloc, &frame)
}

/// The most entries of a peer list that is written.
const LISTED_MAX: usize = 80;

/// Whether an announcement may be written: the source address is that of the sender, the peer lists
/// are short enough, a key is given for a suite that is read, and there are no high halves.
fn is_writable(announcement: &Announcement) -> bool
    ensures { IsTrue result → IsWritable announcement.now }
{
    announcement.source == announcement.sci.source()
        && is_ckn(announcement.ckn.as_slice())
        && announcement.live.len() <= LISTED_MAX
        && announcement.potential.len() <= LISTED_MAX
        && !matches!(
            &announcement.given,
            Some(Given {
                key: WrappedKey::Other,
                ..
            })
        )
        && announcement.highs.is_none()
}

/// What a frame spells, field by field, in one line.
#[derive(Clone, Copy)]
struct Told<'a>(&'a Spelled);

impl fmt::Display for Told<'_> {
    fn fmt<W: fmt::Write>(&self, f: &mut fmt::Formatter<W>) -> fmt::Result {
        let Spelled {
            announcement,
            covered,
            check,
        } = self.0;
        write!(
            f,
            "{} {} covered {covered} check {}",
            Announcer(announcement),
            Keys(announcement),
            Digits(check)
        )
    }
}

/// Who announces, and whom it hears.
#[derive(Clone, Copy)]
struct Announcer<'a>(&'a Announcement);

impl fmt::Display for Announcer<'_> {
    fn fmt<W: fmt::Write>(&self, f: &mut fmt::Formatter<W>) -> fmt::Result {
        let said = self.0;
        write!(f, "source {} ", Digits(&said.source.0))?;
        write!(f, "priority {} server {} ", said.priority, said.server)?;
        write!(f, "sci {} ", Digits(&said.sci.0))?;
        write!(f, "mi {} mn {} ", Digits(&said.mi.0), said.mn)?;
        write!(f, "ckn {} ", Digits(said.ckn.as_slice()))?;
        write!(f, "live {} ", Members(&said.live))?;
        write!(f, "potential {}", Members(&said.potential))
    }
}

/// The members of a peer list, each with its message number; none as `-`.
#[derive(Clone, Copy)]
struct Members<'a>(&'a Peers);

impl fmt::Display for Members<'_> {
    fn fmt<W: fmt::Write>(&self, f: &mut fmt::Formatter<W>) -> fmt::Result {
        let Some((first, others)) = self.0.as_slice().split_first() else {
            return f.write_str("-");
        };
        write!(f, "{}/{}", Digits(&first.mi.0), first.mn)?;
        for peer in others {
            write!(f, ",{}/{}", Digits(&peer.mi.0), peer.mn)?;
        }
        Ok(())
    }
}

/// The keys that are used, and the key that is given; none as `-`.
#[derive(Clone, Copy)]
struct Keys<'a>(&'a Announcement);

impl fmt::Display for Keys<'_> {
    fn fmt<W: fmt::Write>(&self, f: &mut fmt::Formatter<W>) -> fmt::Result {
        match &self.0.uses {
            Some(Uses { latest, old }) => {
                write!(f, "latest {} old {} ", Used(latest), Used(old))?;
            }
            None => f.write_str("latest - old - ")?,
        }
        match &self.0.given {
            Some(given) => write!(f, "given {}", Key(given)),
            None => f.write_str("given -"),
        }
    }
}

/// The use of a key.
#[derive(Clone, Copy)]
struct Used<'a>(&'a KeyUse);

impl fmt::Display for Used<'_> {
    fn fmt<W: fmt::Write>(&self, f: &mut fmt::Formatter<W>) -> fmt::Result {
        let key = self.0;
        write!(f, "{}/{} ", Digits(&key.server.0), key.number)?;
        write!(f, "an {} tx {} rx {} ", key.an.number(), key.tx, key.rx)?;
        write!(f, "lowest {}", key.lowest)
    }
}

/// A key that is given.
#[derive(Clone, Copy)]
struct Key<'a>(&'a Given);

impl fmt::Display for Key<'_> {
    fn fmt<W: fmt::Write>(&self, f: &mut fmt::Formatter<W>) -> fmt::Result {
        let given = self.0;
        write!(f, "{} an {} ", given.number, given.an.number())?;
        write!(f, "offset {} ", name_of(given.offset))?;
        match &given.key {
            WrappedKey::Aes128(wrapped) => write!(f, "128 bits {}", Digits(wrapped)),
            WrappedKey::Aes256(wrapped) => write!(f, "256 bits {}", Digits(wrapped)),
            WrappedKey::Xpn128(wrapped) => write!(f, "xpn 128 bits {}", Digits(wrapped)),
            WrappedKey::Xpn256(wrapped) => write!(f, "xpn 256 bits {}", Digits(wrapped)),
            WrappedKey::Other => f.write_str("of another suite"),
        }
    }
}

/// The name of a confidentiality offset.
fn name_of(offset: ConfidentialityOffset) -> &'static str {
    match offset {
        ConfidentialityOffset::None => "none",
        ConfidentialityOffset::Octets0 => "0",
        ConfidentialityOffset::Octets30 => "30",
        ConfidentialityOffset::Octets50 => "50",
    }
}
