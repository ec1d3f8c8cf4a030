//! What is judged and told of packets, and its lines.

ghost use Rattle.std.specs.Prelude.{◌≡◌, ◌++◌, OnOk};
ghost use Rattle.audit_report.specs.Lines.{line_of};
ghost use Rattle.audit_report.specs.Verdicts.{begun_verdict, blame, breach, judged_lines, order_line, sum_lines, verdict_words};

use crate::blame::{Blame, Breach};
use crate::changes::put_changes;
use crate::lines::{number, put_line};
use crate::members::put_sums;
use crate::readiness::{Sums, put_rollover, put_unready};
use crate::tally::Tally;
use crate::unknown::UnknownName;
use crate::uses::{TimedUse, put_timed};
use member_notes::{Member, MemberSums};
use rollover_notes::Unready;
use std::alloc::{AllocError, Global};
use std::marker::Model;
use trace_text::Word;
use use_notes::changes::Change;
use use_notes::{Order, Use};

/// What is judged of packets: the least pair that uses a packet number twice under a key, and the least
/// that breaks one key under each identifier. And what is told of them: each key and sender, also with
/// how many of its fresh frames came late, the changes of key, who was not ready for one, the
/// members, and the names that no group has. Contracts see the lists.
#[derive(Drop)]
pub struct Verdict {
    once: Option<(u32, u32)>,
    one_key: Option<(u32, u32)>,
    uses: Vec<Use>,
    timed: Vec<TimedUse>,
    changes: Vec<Change>,
    unready: Vec<Unready>,
    members: Vec<Member>,
    unknown: Vec<UnknownName>,
}

impl Model for Verdict {
    ghost use Rattle.audit_report.specs.Verdicts.{Verdict as Judged};

    ghost Value = { Judged };

    ghost view = { λ v. record {
      once = v.once;
      one_key = v.one_key;
      uses = v.uses.items;
      timed = v.timed.items;
      changes = v.changes.items;
      unready = v.unready.items;
      members = v.members.items;
      unknown = v.unknown.items;
    } };
}

impl Verdict {
    /// Of its parts.
    pub fn of(
        once: Option<(u32, u32)>,
        one_key: Option<(u32, u32)>,
        uses: Vec<Use>,
        timed: Vec<TimedUse>,
        changes: Vec<Change>,
        unready: Vec<Unready>,
        members: Vec<Member>,
        unknown: Vec<UnknownName>,
    ) -> Verdict
        ensures { result ≡ record {
          once = once;
          one_key = one_key;
          uses = uses.items;
          timed = timed.items;
          changes = changes.items;
          unready = unready.items;
          members = members.items;
          unknown = unknown.items;
        } }
    {
        Verdict {
            once,
            one_key,
            uses,
            timed,
            changes,
            unready,
            members,
            unknown,
        }
    }

    /// What is told of the names that no group has.
    pub(crate) fn unknown(&self) -> &[UnknownName]
        ensures { result.now ≡ self.now.unknown }
    {
        self.unknown.as_slice()
    }

    /// The least pair that uses a packet number twice under a key.
    pub fn once(&self) -> Option<(u32, u32)>
        ensures { result ≡ self.now.once }
    {
        self.once
    }

    /// The least pair that breaks one key under each identifier.
    pub fn one_key(&self) -> Option<(u32, u32)>
        ensures { result ≡ self.now.one_key }
    {
        self.one_key
    }

    /// What is told of each key and sender, with which of its fresh frames came late.
    pub fn timed(&self) -> &[TimedUse]
        ensures { result.now ≡ self.now.timed }
    {
        self.timed.as_slice()
    }

    /// What is told of each member.
    pub fn members(&self) -> &[Member]
        ensures { result.now ≡ self.now.members }
    {
        self.members.as_slice()
    }

    /// What breaks: a nonce that is shared comes before a key.
    pub fn breach(&self) -> Option<Breach>
        ensures { result ≡ breach self.now }
    {
        match (self.once, self.one_key) {
            (Some((first, second)), _) => Some(Breach::Nonce { first, second }),
            (None, Some((first, second))) => Some(Breach::Key { first, second }),
            (None, None) => None,
        }
    }

    /// For what a capture is to blame of which this is judged, and of whose packets these are the counts.
    /// With `strict` a protected frame is to be right, and none wrong or undecided.
    pub fn blame(&self, strict: bool, tally: &Tally) -> Blame
        ensures { result ≡ blame strict tally.now self.now }
    {
        match self.breach() {
            Some(breach) => Blame::Refuted(breach),
            None => tally.doubt(strict),
        }
    }

    /// Appends each key and sender, each change, and each member that was not ready for a key.
    pub(crate) fn begin(&self, into: &mut Vec<u8>) -> Result<(), AllocError>
        ensures { OnOk result (into.new.items ≡ into.old.items ++ begun_verdict self.now) }
    {
        put_timed(&self.timed, into)?;
        put_changes(&self.changes, into)?;
        put_unready(&self.unready, into)
    }

    /// Appends what is judged.
    pub(crate) fn put_judged(&self, tally: &Tally, into: &mut Vec<u8>) -> Result<(), AllocError>
        ensures { OnOk result (into.new.items ≡ into.old.items ++ judged_lines tally.now self.now) }
    {
        let (mka, sec) = (&tally.mka, &tally.sec);
        put_judged(b"once", self.once, sec.right, sec.all, into)?;
        put_judged(b"onekey", self.one_key, mka.giving, mka.distributing, into)?;
        put_order(&Order::of(&self.uses), into)
    }

    /// Appends what is told of all changes and of all members.
    pub(crate) fn put_sums(&self, alloc: Global, into: &mut Vec<u8>) -> Result<(), AllocError>
        ensures { OnOk result (into.new.items ≡ into.old.items ++ sum_lines self.now) }
    {
        let changes = self.changes.len() as u64;
        put_rollover(changes, &Sums::of(&self.unready, &self.timed), into)?;
        put_sums(&MemberSums::of(alloc, &self.members)?, into)
    }
}

/// Appends a verdict: the pair that breaks, or of how many packets how many were judged.
fn put_judged(
    name: &[u8],
    pair: Option<(u32, u32)>,
    judged: u32,
    all: u32,
    into: &mut Vec<u8>,
) -> Result<(), AllocError>
    ensures { OnOk result (into.new.items
        ≡ into.old.items ++ line_of name.now (verdict_words pair judged all)) }
{
    match pair {
        Some((first, second)) => put_line(
            into,
            name,
            &[Word::Text(b"broken"), number(first), number(second)],
        ),
        None => put_line(
            into,
            name,
            &[
                Word::Text(b"ok"),
                number(judged),
                Word::Text(b"of"),
                number(all),
            ],
        ),
    }
}

/// Appends in which order packet numbers came.
fn put_order(order: &Order, into: &mut Vec<u8>) -> Result<(), AllocError>
    ensures { OnOk result (into.new.items ≡ into.old.items ++ order_line order.now) }
{
    put_line(
        into,
        b"order",
        &[
            Word::Text(b"fell"),
            Word::Number(order.fell),
            Word::Text(b"window"),
            Word::Number(order.window),
            Word::Text(b"high"),
            Word::Number(order.high as u64),
        ],
    )
}
