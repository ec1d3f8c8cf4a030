//! How many packets there are of each kind.

ghost use Rattle.std.specs.Prelude.{◌≡◌, ◌<◌, ◌+◌, ◌^◌, ◌∷◌, ℕ, [], List, length, min, if◌then◌else◌};
ghost use Rattle.audit_report.specs.declared.finding.Finding.{Finding};
ghost use Rattle.audit_report.specs.Told.{Told};
ghost use Rattle.audit_report.specs.Tallies.{tally_of, sec_counts, mka_counts, undecided_counts, malformations};
ghost use Rattle.audit_report.specs.Verdicts.{doubt};

use crate::blame::Blame;
use crate::finding::Finding;
use gcm_frames::TagRefusal;
use known_keys::Reason;
use packet_verdicts::Malformed;

/// How many frames nothing is said of, by the reason.
#[derive(Clone, Copy, Debug, PartialEq, Eq)]
pub struct UndecidedCounts {
    pub suite: u32,
    pub offset: u32,
    pub unseen: u32,
    pub ckn: u32,
    pub no_key: u32,
}

/// How many frames with the EtherType of MACsec can't be judged, by the reason.
#[derive(Clone, Copy, Debug, PartialEq, Eq)]
pub struct Malformations {
    pub version: u32,
    pub mode: u32,
    pub short: u32,
    pub sl_wrong: u32,
    pub long: u32,
}

/// How many frames have the EtherType of MACsec, in all and by what they are.
#[derive(Clone, Copy, Debug, PartialEq, Eq)]
pub struct SecCounts {
    pub all: u32,
    pub right: u32,
    pub wrong: u32,
    pub undecided: u32,
    pub malformed: u32,
    pub cut: u32,
    pub reasons: UndecidedCounts,
    pub malformations: Malformations,
}

/// How many frames of key agreement there are, in all and by what they are.
#[derive(Clone, Copy, Debug, PartialEq, Eq)]
pub struct MkaCounts {
    pub all: u32,
    pub right: u32,
    pub wrong: u32,
    pub unknown: u32,
    pub dropped: u32,
    pub cut: u32,
    /// With a Distributed SAK.
    pub distributing: u32,
    /// Right ones that give a SAK.
    pub giving: u32,
}

/// How many packets there are, in all and of each kind.
#[derive(Clone, Copy, Debug, PartialEq, Eq)]
pub struct Tally {
    pub all: u32,
    pub other: u32,
    pub foreign: u32,
    /// Without a time of their own.
    pub untimed: u32,
    pub mka: MkaCounts,
    pub sec: SecCounts,
}

impl Tally {
    /// Of no packet.
    pub fn none() -> Tally
        ensures { result ≡ tally_of [] }
    {
        Tally {
            all: 0,
            other: 0,
            foreign: 0,
            untimed: 0,
            mka: MkaCounts {
                all: 0,
                right: 0,
                wrong: 0,
                unknown: 0,
                dropped: 0,
                cut: 0,
                distributing: 0,
                giving: 0,
            },
            sec: SecCounts {
                all: 0,
                right: 0,
                wrong: 0,
                undecided: 0,
                malformed: 0,
                cut: 0,
                reasons: UndecidedCounts {
                    suite: 0,
                    offset: 0,
                    unseen: 0,
                    ckn: 0,
                    no_key: 0,
                },
                malformations: Malformations {
                    version: 0,
                    mode: 0,
                    short: 0,
                    sl_wrong: 0,
                    long: 0,
                },
            },
        }
    }

    /// Of a packet more.
    pub fn with(&self, finding: &Finding, is_untimed: bool) -> Tally
        ensures all { self.now.all + 1 < 2 ^ 32 → result.all ≡ self.now.all + 1 }
        ensures tally { (before : List Told) (begun : List (List ℕ)) → self.now ≡ tally_of before
            → length before + 1 < 2 ^ 32
            → result ≡ tally_of (record { begun = begun; finding = finding.now; is_untimed = is_untimed } ∷ before) }
    {
        Tally {
            all: more(self.all, true),
            other: more(self.other, finding.is_other()),
            foreign: more(self.foreign, finding.is_foreign()),
            untimed: more(self.untimed, is_untimed),
            mka: self.mka.with(finding),
            sec: self.sec.with(finding),
        }
    }

    /// For what a capture of these packets is to blame of which no pair breaks. With `strict` a protected
    /// frame is to be right, and none wrong or undecided.
    pub(crate) fn doubt(&self, strict: bool) -> Blame
        ensures { result ≡ doubt strict self.now }
    {
        let (wrong, undecided) = (self.sec.wrong, self.sec.undecided);
        if strict && (wrong > 0 || undecided > 0) {
            return Blame::Doubted { wrong, undecided };
        }
        if strict && self.sec.right == 0 {
            return Blame::NotJudged;
        }
        Blame::None
    }
}

impl SecCounts {
    /// Of a packet more.
    fn with(&self, finding: &Finding) -> SecCounts
        ensures { (fs : List Finding) → self.now ≡ sec_counts fs → length fs + 1 < 2 ^ 32
            → result ≡ sec_counts (finding.now ∷ fs) }
    {
        SecCounts {
            all: more(self.all, finding.is_sec()),
            right: more(self.right, finding.is_right_frame()),
            wrong: more(self.wrong, finding.is_wrong_frame()),
            undecided: more(self.undecided, finding.is_undecided()),
            malformed: more(self.malformed, finding.is_malformed()),
            cut: more(self.cut, finding.is_sec_cut()),
            reasons: self.reasons.with(finding),
            malformations: self.malformations.with(finding),
        }
    }
}

impl UndecidedCounts {
    /// Of a packet more.
    fn with(&self, finding: &Finding) -> UndecidedCounts
        ensures { (fs : List Finding) → self.now ≡ undecided_counts fs → length fs + 1 < 2 ^ 32
            → result ≡ undecided_counts (finding.now ∷ fs) }
    {
        UndecidedCounts {
            suite: more(self.suite, finding.is_for(Reason::Suite)),
            offset: more(self.offset, finding.is_for(Reason::Offset)),
            unseen: more(self.unseen, finding.is_for(Reason::Unseen)),
            ckn: more(self.ckn, finding.is_for(Reason::Ckn)),
            no_key: more(self.no_key, finding.is_for(Reason::NoKey)),
        }
    }
}

impl Malformations {
    /// Of a packet more.
    fn with(&self, finding: &Finding) -> Malformations
        ensures { (fs : List Finding) → self.now ≡ malformations fs → length fs + 1 < 2 ^ 32
            → result ≡ malformations (finding.now ∷ fs) }
    {
        Malformations {
            version: more(self.version, finding.is_refused(TagRefusal::Version)),
            mode: more(self.mode, finding.is_refused(TagRefusal::Mode)),
            short: more(self.short, finding.is_refused(TagRefusal::Short)),
            sl_wrong: more(self.sl_wrong, finding.is_refused(TagRefusal::SlWrong)),
            long: more(self.long, finding.is_because(Malformed::Long)),
        }
    }
}

impl MkaCounts {
    /// Of a packet more.
    fn with(&self, finding: &Finding) -> MkaCounts
        ensures { (fs : List Finding) → self.now ≡ mka_counts fs → length fs + 1 < 2 ^ 32
            → result ≡ mka_counts (finding.now ∷ fs) }
    {
        MkaCounts {
            all: more(self.all, finding.is_mka()),
            right: more(self.right, finding.is_right_mkpdu()),
            wrong: more(self.wrong, finding.is_wrong_mkpdu()),
            unknown: more(self.unknown, finding.is_unknown()),
            dropped: more(self.dropped, finding.is_dropped()),
            cut: more(self.cut, finding.is_mka_cut()),
            distributing: more(self.distributing, finding.distributes()),
            giving: more(self.giving, finding.gives_sak()),
        }
    }
}

/// A count with one more, if that is counted.
fn more(count: u32, counted: bool) -> u32
    ensures { result ≡ min (count + (if counted then 1 else 0)) 4294967295 }
{
    count.saturating_add(if counted { 1 } else { 0 })
}
