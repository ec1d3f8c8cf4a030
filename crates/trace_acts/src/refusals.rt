//! Why a line is refused by its text, and by where it stands.

ghost use Rattle.std.specs.Prelude.{◌≡◌, false, None};
ghost use Rattle.trace_acts.specs.Kinds.{first_of, is_allowed, kind_of_fault};
ghost use Rattle.trace_acts.specs.Places.{is_elsewhere};

use crate::choices::{Choices, Rule};
use crate::halt::Kind;
use trace_text::{Line, TextFault};

/// A fault of a line's text as a kind.
pub fn kind_of_fault(fault: TextFault) -> Kind
    ensures { result ≡ kind_of_fault fault }
{
    match fault {
        TextFault::TooLong => Kind::TooLong,
        TextFault::Word => Kind::Word,
        TextFault::Count => Kind::Count,
        TextFault::Hex => Kind::Hex,
        TextFault::Range => Kind::Range,
    }
}

/// Why a line before the first station is refused.
pub fn refusal(chosen: &Choices, line: &Line) -> Option<Kind>
    ensures { result
        ≡ first_of (is_allowed line.now false chosen.now) None }
{
    if is_allowed(chosen, line) {
        None
    } else {
        Some(Kind::Order)
    }
}

/// Whether a line may stand before the first station.
fn is_allowed(chosen: &Choices, line: &Line) -> bool
    ensures { result ≡ is_allowed line.now false chosen.now }
{
    match line {
        Line::DrawsCount | Line::DrawsChaCha { .. } => chosen.draws.is_none(),
        Line::DrawsList { .. } => matches!(chosen.draws, None | Some(Rule::Listed(_))),
        Line::Conf { .. } => chosen.conf.is_none(),
        Line::Window { .. } => chosen.window.is_none(),
        Line::Rekey { .. } => chosen.rekey.is_none(),
        Line::Lag { .. } => chosen.lag.is_none(),
        Line::Suite { .. } => chosen.suite.is_none(),
        Line::Flag { .. } => chosen.early_flag.is_none(),
        Line::Group { .. } => chosen.group.is_none(),
        Line::Station { .. } => chosen.group.is_some(),
        _ => false,
    }
}

/// Whether a line may only stand before the first station, or inside a race.
pub fn is_elsewhere(line: &Line) -> bool
    ensures { result ≡ is_elsewhere line.now }
{
    matches!(
        line,
        Line::DrawsCount
            | Line::DrawsChaCha { .. }
            | Line::DrawsList { .. }
            | Line::Conf { .. }
            | Line::Window { .. }
            | Line::Rekey { .. }
            | Line::Lag { .. }
            | Line::Suite { .. }
            | Line::Flag { .. }
            | Line::Group { .. }
            | Line::Burst { .. }
            | Line::While
            | Line::End
    )
}
