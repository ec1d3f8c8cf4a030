//! Whether a packet is of a name that no group has.

ghost use Rattle.std.specs.Prelude.{◌∷◌, ℕ, List, OnOk, Option};
ghost use Rattle.audit_report.specs.Unknown.{StandsFor};
ghost use Rattle.audit_facts.specs.Noted.{unknown_by};

use audit_report::UnknownNames;
use packet_verdicts::{Kind, Mka};
use std::alloc::AllocError;

/// A packet of this kind more.
pub fn name(names: &mut UnknownNames, kind: &Kind) -> Result<(), AllocError>
    ensures { (h : List (Option (List ℕ))) → StandsFor h names.old
        → OnOk result (StandsFor (unknown_by kind.now ∷ h) names.new) }
{
    match kind {
        Kind::Mka(Mka::Unknown { ckn, .. }) => names.note(ckn.as_slice()),
        _ => {
            names.pass();
            Ok(())
        }
    }
}
