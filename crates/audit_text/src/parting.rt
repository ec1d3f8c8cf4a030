//! Where the key text ends and the capture begins.

ghost use Rattle.std.specs.Prelude.{◌≡◌, ◌<◌, ◌≤◌, ◌++◌, ℕ, List, Ok, Err, take};
ghost use Rattle.lan_base.specs.Faults.{Rose};
ghost use Rattle.lan_base.specs.declared.source.ReadEnd.TheVariants as ends;
ghost use Rattle.text_lines.specs.Texts.{without_return};
ghost use Rattle.octet_supply.specs.Supplying.{Stands, most_given};
ghost use Rattle.octet_supply.specs.declared.supply.LineEnd.TheVariants as line_ends;
ghost use Rattle.audit_text.specs.declared.parting.Part.TheVariants as parts;
ghost use Rattle.audit_text.specs.Parting.{Parts, line_of};

use capture_packets::begins_file;
use lan_base::{ReadEnd, Source};
use octet_supply::{LineEnd, Supply};

/// How many octets a magic number has.
const MAGIC_LEN: usize = 4;

/// At most so many octets are taken of a line: those that it may have, and a carriage return.
const MOST_TAKEN: usize = 4097;

/// What follows at the start of a line.
#[derive(Clone, Copy, Debug, PartialEq, Eq)]
pub enum Part {
    /// The capture.
    Capture,
    /// A line of the key text, which ends so.
    Line(LineEnd),
}

/// Reads on at the start of a line: answers whether the capture begins there, and takes the line
/// where it does not, without its ending, in place of what the vector has.
pub fn next_part<S: Source>(
    supply: &mut Supply,
    source: &mut S,
    line: &mut Vec<u8>,
) -> Result<Part, ReadEnd>
    ensures parts { (limit : ℕ) (text given behind : List ℕ)
        → Stands limit text given supply.old (S.left source.old)
        → take limit text ≡ given ++ behind
        → Parts limit text given behind line.new.items supply.new (S.left source.new) result }
    ensures rises { result ≡ Ok (parts.Line line_ends.Feed) → supply.old.given < supply.new.given }
    ensures most { most_given supply.new ≡ most_given supply.old }
    ensures failed { result ≡ Err ends.Failed → Rose (S.faults source.old) (S.faults source.new) }
    ensures counts { S.faults source.old ≤ S.faults source.new }
{
    line.clear();
    supply.peek(MAGIC_LEN, source)?;
    let held = supply.held();
    if begins_file(&held[..held.len().min(MAGIC_LEN)]) {
        return Ok(Part::Capture);
    }
    let end = supply.line(MOST_TAKEN, source, line)?;
    drop_ending(end, line);
    Ok(Part::Line(end))
}

/// Drops the carriage return before a line feed.
fn drop_ending(end: LineEnd, line: &mut Vec<u8>)
    ensures { line.new.items ≡ line_of end line.old.items }
{
    match end {
        LineEnd::Feed => drop_return(line),
        LineEnd::Most | LineEnd::Source => {}
    }
}

/// Drops a carriage return at the end of a line.
fn drop_return(line: &mut Vec<u8>)
    ensures { line.new.items ≡ without_return line.old.items }
{
    let count = kept_of(line.as_slice());
    line.truncate(count);
}

/// How many octets a line has without one carriage return at its end.
fn kept_of(line: &[u8]) -> usize
    ensures { take result line.now ≡ without_return line.now }
{
    let [front @ .., last] = line else {
        return 0;
    };
    if *last == b'\r' {
        front.len()
    } else {
        line.len()
    }
}
