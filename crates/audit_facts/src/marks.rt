//! What is marked of one packet.

ghost use Rattle.std.specs.Prelude.{◌++◌, List, OnOk};
ghost use Rattle.mark_notes.specs.Standing.{StandsFor};
ghost use Rattle.mark_notes.specs.declared.giving.Giving.{Giving};
ghost use Rattle.mark_notes.specs.declared.reuse.Reuse.{Reuse};
ghost use Rattle.audit_facts.specs.Noted.{giving_in, givings_by, reuse_in, reuses_by};
ghost use Rattle.audit_facts.specs.inside.Marking.{IsBehindAs, IsBehindReuses};

use audit_report::{Finding, Handed};
use mark_notes::{Giving, MarkNotes, Reuse};
use member_notes::RightMkpdu;
use std::alloc::AllocError;
use use_notes::{Novelty, RightFrame};

/// What a packet is behind the ones before it is marked.
pub fn mark(marks: &mut MarkNotes, finding: &Finding) -> Result<(), AllocError>
    ensures { (gs : List Giving) (rs : List Reuse) → StandsFor gs rs marks.old
        → IsBehindReuses rs finding.now
        → OnOk result (StandsFor (givings_by finding.now ++ gs) (reuses_by finding.now ++ rs) marks.new) }
{
    match finding {
        Finding::RightFrame { frame, novelty } => mark_frame(marks, frame, *novelty),
        Finding::RightMkpdu { mkpdu, handed, .. } => mark_mkpdu(marks, mkpdu, handed),
        _ => Ok(()),
    }
}

/// A right frame is marked, if it uses a packet number again.
fn mark_frame(marks: &mut MarkNotes, frame: &RightFrame, novelty: Novelty) -> Result<(), AllocError>
    ensures { (gs : List Giving) (rs : List Reuse) → StandsFor gs rs marks.old
        → IsBehindAs rs frame.now novelty
        → OnOk result (StandsFor gs (reuse_in frame.now novelty ++ rs) marks.new) }
{
    match novelty {
        Novelty::Reused { first } => marks.reuse(&Reuse {
            packet: frame.packet,
            key: frame.key,
            sci: frame.sci,
            pn: frame.pn,
            first,
        }),
        _ => Ok(()),
    }
}

/// A right MKPDU is marked, if it gives a key.
fn mark_mkpdu(
    marks: &mut MarkNotes,
    mkpdu: &RightMkpdu,
    handed: &Option<Handed>,
) -> Result<(), AllocError>
    ensures { (gs : List Giving) (rs : List Reuse) → StandsFor gs rs marks.old
        → OnOk result (StandsFor (giving_in mkpdu.now handed.now ++ gs) rs marks.new) }
{
    match handed {
        Some(Handed::Key { id, an, told, .. }) => marks.give(&Giving {
            key: told.key,
            packet: mkpdu.packet,
            group: mkpdu.group,
            id: *id,
            an: *an,
        }),
        _ => Ok(()),
    }
}
