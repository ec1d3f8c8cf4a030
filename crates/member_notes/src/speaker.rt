//! What is kept of what one member says.

ghost use Rattle.std.specs.Prelude.{ℕ, ◌≡◌, max, if◌then◌else◌, OnOk, OnErr};
ghost use Rattle.member_notes.specs.Facts.{nears_end, number_given, spoken};
ghost use Rattle.member_notes.specs.inside.Hearing.{hears, rivals, telling, unheard};

use crate::claim::Claim;
use crate::facts::{MemberCounts, Telling};
use crate::mkpdu::RightMkpdu;
use crate::novelty::MkpduNovelty;
use crate::seldom::{Seldom, kinds_in, renew};
use lan_base::Sci;
use mkpdu_codec::{Announcement, Given, Uses};
use std::alloc::{AllocError, Global};
use std::marker::Model;

/// The lowest acceptable packet number above which a key nears its end (IEEE Std 802.1X, pending
/// exhaustion of packet numbers).
const PENDING_EXHAUSTION: u32 = 0xC000_0000;

/// What is told of a member, the greatest key number that it gave, and what the last new MKPDU says if
/// that serves. Contracts see these three.
#[derive(Drop)]
pub struct Speaker {
    sci: Sci,
    mkpdus: u32,
    again: u32,
    given: u32,
    greatest: u32,
    seldom: Option<Box<Seldom>>,
}

impl Model for Speaker {
    ghost use Rattle.member_notes.specs.Speakers.{Speaker as Speaks};
    ghost use Rattle.member_notes.specs.inside.Fewness.{seldom_in, speaks};

    ghost Value = { Speaks };

    ghost view = { λ s. speaks s.sci s.mkpdus s.again s.given s.greatest (seldom_in s.seldom) };
}

impl Speaker {
    /// Of no MKPDU. No memory is taken.
    pub fn new(sci: Sci) -> Speaker
        ensures { result ≡ unheard sci }
    {
        Speaker {
            sci,
            mkpdus: 0,
            again: 0,
            given: 0,
            greatest: 0,
            seldom: None,
        }
    }

    /// What is told of the member.
    pub fn counts(&self) -> MemberCounts
        ensures { result ≡ self.now.counts }
    {
        let kinds = kinds_in(&self.seldom);
        MemberCounts {
            sci: self.sci,
            mkpdus: self.mkpdus,
            again: self.again,
            given: self.given,
            fell: kinds.fell,
            servers: kinds.servers,
            returned: kinds.returned,
            high: kinds.high,
        }
    }

    /// Whether it stands against what an MKPDU says that serves.
    pub fn rivals(&self, mkpdu: &RightMkpdu, nanos: u64, said: &Announcement) -> bool
        ensures { result ≡ rivals (spoken mkpdu.now nanos said.now) self.now.claim }
    {
        match &self.seldom {
            None => false,
            Some(seldom) => match &seldom.claim {
                None => false,
                Some(claim) => claim.rivals(mkpdu, nanos, said),
            },
        }
    }

    /// An MKPDU more. An error leaves all as it was.
    pub fn hear(
        &mut self,
        alloc: Global,
        mkpdu: &RightMkpdu,
        said: &Announcement,
        novelty: MkpduNovelty,
        serves_too: bool,
        claim: Option<Claim>,
    ) -> Result<(), AllocError>
        ensures heard { (nanos : ℕ) → OnOk result
            (self.new ≡ hears novelty serves_too claim (spoken mkpdu.now nanos said.now) self.old) }
        ensures kept { OnErr result (self.new ≡ self.old) }
    {
        let telling = self.telling(mkpdu, said, novelty, serves_too);
        let counts = self.counts().with(&telling);
        renew(
            alloc,
            &mut self.seldom,
            counts.kinds(),
            novelty.is_new(),
            claim,
        )?;
        self.mkpdus = counts.mkpdus;
        self.again = counts.again;
        self.given = counts.given;
        self.greatest = greater(self.greatest, telling.gives, said);
        Ok(())
    }

    /// What an MKPDU is among those of the member.
    fn telling(
        &self,
        mkpdu: &RightMkpdu,
        said: &Announcement,
        novelty: MkpduNovelty,
        serves_too: bool,
    ) -> Telling
        ensures { (nanos : ℕ) → result ≡ telling novelty serves_too self.now.greatest (spoken mkpdu.now nanos said.now) }
    {
        let gives = novelty.is_new() && said.given.is_some();
        Telling {
            packet: mkpdu.packet,
            novelty,
            gives,
            serves_too,
            gives_back: gives && number_given(&said.given) < self.greatest,
            is_high: novelty.is_new() && nears_end(&said.uses),
        }
    }
}

/// The greatest key number with the one that is given, if one is.
fn greater(greatest: u32, gives: bool, said: &Announcement) -> u32
    ensures { result ≡ (if gives then max (number_given said.now.given) greatest else greatest) }
{
    if gives {
        number_given(&said.given).max(greatest)
    } else {
        greatest
    }
}

/// The number of a key that is given, 0 for none.
fn number_given(given: &Option<Given>) -> u32
    ensures { result ≡ number_given given.now }
{
    match given {
        None => 0,
        Some(given) => given.number,
    }
}

/// Whether a key in use is near the end of its packet numbers.
fn nears_end(uses: &Option<Uses>) -> bool
    ensures { result ≡ nears_end uses.now }
{
    match uses {
        None => false,
        Some(uses) => PENDING_EXHAUSTION < uses.latest.lowest
            || PENDING_EXHAUSTION < uses.old.lowest,
    }
}
