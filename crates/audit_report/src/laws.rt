//! A law of reports.

ghost use Rattle.std.specs.Prelude.{◌≡◌, ◌++◌, Bool, ℕ, List};
ghost use Rattle.audit_report.specs.Told.{Told};
ghost use Rattle.audit_report.specs.Report.{packet_lines};

/// Of a front of the packets the lines are a front of those of the whole: what was written while a
/// capture grew is not taken back.
pub fn law_a_front_is_told_first()
    ensures { (shows keys : Bool) (later earlier : List Told) → (more : List ℕ)
        × (packet_lines shows keys (later ++ earlier) ≡ packet_lines shows keys earlier ++ more) }
{}
