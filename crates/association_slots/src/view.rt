//! What the threads at a table know of it. Contracts read these types. No value of a view is made,
//! so its numbers have no bound but the rule's.
use lan_base::AssociationNumber;
use std::collections::LinkedList;

/// What the current word shows: an epoch that is present under an AN, or that none is present since
/// the epoch that was the last one, 0 for none.
#[derive(Clone, Copy, Debug, PartialEq, Eq)]
pub struct Current {
    pub epoch: u32,
    pub present: bool,
    pub an: AssociationNumber,
}

/// What an addition to a slot gave.
#[derive(Clone, Copy, Debug, PartialEq, Eq)]
pub enum Added {
    /// A packet number of the loaded epoch.
    Number { pn: u32 },
    /// None, since the loaded epoch has no packet number left.
    Over,
    /// None, since the slot was shut or showed another epoch.
    Gone,
}

/// The slot of an AN as control left it, and the least next number that control knows it to have
/// had then.
pub struct SlotView {
    pub epoch: u64,
    pub shut: bool,
    pub seen: u64,
}

/// A next number that a slot showed under an epoch.
pub struct NextSeen {
    pub an: AssociationNumber,
    pub epoch: u64,
    pub next: u64,
}

/// An addition by a seat of a number: the epoch that the slot showed, the one that was loaded
/// before, and the packet number, if one was claimed; else 0.
pub struct Addition {
    pub seat: u64,
    pub an: AssociationNumber,
    pub met: u64,
    pub loaded: u64,
    pub claimed: bool,
    pub pn: u64,
}

/// What a seat of a number noted of an epoch: that it has no packet number left, or that it was
/// gone.
pub struct Mark {
    pub seat: u64,
    pub an: AssociationNumber,
    pub epoch: u64,
}

/// What control knows. Lists are newest first, but for the card words.
pub struct ControlView {
    /// The packet number that each raised slot starts at.
    pub first: u64,
    /// How many cards there is room for.
    pub limit: u64,
    /// The words of the cards so far, oldest first.
    pub card_words: LinkedList<u64>,
    pub slots: LinkedList<SlotView>,
    /// The slots that were raised, each an AN and an epoch.
    pub raises: LinkedList<(AssociationNumber, u64)>,
    /// What the slots showed when they were shut.
    pub found: LinkedList<NextSeen>,
    /// What was stored in the current word.
    pub points: LinkedList<Current>,
    /// What the slots showed when control looked at them.
    pub loads: LinkedList<NextSeen>,
    /// Whether the seat of each number, from 1, is out.
    pub out: LinkedList<bool>,
    /// The additions of the seats that came back, then their marks of epochs without a number left,
    /// their marks of epochs that were gone, their notes of nothing present, and the card words
    /// that they read.
    pub told: LinkedList<Addition>,
    pub told_over: LinkedList<Mark>,
    pub told_gone: LinkedList<Mark>,
    pub told_notes: LinkedList<u64>,
    pub told_reads: LinkedList<(u64, u64)>,
}

/// What a seat is given when it is made: the epoch that was pointed at last, whether it was present
/// then, and the least next numbers of the open slots.
pub struct Start {
    pub last: u64,
    pub present: bool,
    pub given: LinkedList<NextSeen>,
}

/// What a seat knows. Lists are newest first.
pub struct SeatView {
    pub number: u64,
    /// How many cards the table has room for.
    pub limit: u64,
    /// How often it loaded the current word, and what the last load showed.
    pub loads: u64,
    pub shown: Current,
    /// Whether it has added since that load.
    pub added: bool,
    pub additions: LinkedList<Addition>,
    /// The epochs in which a seat of this number was shown that no packet number is left.
    pub over: LinkedList<Mark>,
    /// The epochs that this seat found gone.
    pub gone: LinkedList<Mark>,
    /// What its loads showed as present: each an epoch and the AN under which it was.
    pub loaded: LinkedList<Current>,
    /// The last epochs of the loads that showed nothing present.
    pub notes: LinkedList<u64>,
    /// The card words that it read: which word of the table, and what it held.
    pub reads: LinkedList<(u64, u64)>,
    pub start: Start,
}

/// What a thread knows. A seat that came back knows nothing any more.
pub enum View {
    Control(ControlView),
    Seat(SeatView),
    Spent,
}
