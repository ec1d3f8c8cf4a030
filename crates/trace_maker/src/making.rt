//! The text is made line by line.

ghost use Rattle.std.specs.Prelude.{◌≡◌, ◌++◌, [], ◌∷◌, OnOk, OnErr};
ghost use Rattle.trace_text.specs.Writing.{written};
ghost use Rattle.trace_text.specs.Appending.{Grew};
ghost use Rattle.trace_maker.specs.Generator.{after};
ghost use Rattle.trace_maker.specs.Made.{made, head, stations, choices, text_of};

use crate::generator::Generator;
use crate::lines::{chosen_line, group_line, station_line};
use std::alloc::{AllocError, Global};
use trace_text::{Line, write_line};

/// How many lines are chosen.
const CHOICES: u32 = 300;

/// Appends the trace that is made of a number. An `Err` leaves what was there.
pub fn make(alloc: Global, number: u32, into: &mut Vec<u8>) -> Result<(), AllocError>
    ensures ok { OnOk result (into.new.items ≡ into.old.items ++ made number) }
    ensures err { OnErr result (into.new.items ≡ into.old.items) }
{
    let start = into.len();
    let result = put_lines(alloc, number, into);
    if result.is_err() {
        into.truncate(start);
    }
    result
}

/// Appends the trace that is made of a number. An `Err` leaves what was there, and may leave a
/// front of the trace behind it.
fn put_lines(alloc: Global, number: u32, into: &mut Vec<u8>) -> Result<(), AllocError>
    ensures ok { OnOk result (into.new.items ≡ into.old.items ++ made number) }
    ensures err { OnErr result (Grew into.old.items into.new.items) }
{
    let mut generator = Generator {
        state: u64::from(number),
    };
    put_head(alloc, into)?;
    put_stations(&mut generator, into)?;
    put(into, Line::Flow { rounds: 40 })?;
    put_choices(alloc, &mut generator, into)?;
    put(into, Line::Flow { rounds: 100 })
}

/// Appends the lines that stand first.
fn put_head(alloc: Global, into: &mut Vec<u8>) -> Result<(), AllocError>
    ensures ok { OnOk result (into.new.items ≡ into.old.items ++ text_of head) }
    ensures err { OnErr result (Grew into.old.items into.new.items) }
{
    put(into, Line::DrawsCount)?;
    put(into, group_line(alloc)?)?;
    put(into, Line::Rekey { rekey: 40 })
}

/// Appends the six stations' lines.
fn put_stations(generator: &mut Generator, into: &mut Vec<u8>) -> Result<(), AllocError>
    ensures ok { OnOk result (into.new.items
        ≡ into.old.items ++ text_of (stations generator.old.state)) }
    ensures steps { OnOk result (generator.new.state ≡ after generator.old.state 6) }
    ensures err { OnErr result (Grew into.old.items into.new.items) }
{
    for i in 0..6u8 {
        let value = generator.value();
        put(into, station_line(i + 1, value))?;
    }
    Ok(())
}

/// Appends the lines that are chosen.
fn put_choices(
    alloc: Global,
    generator: &mut Generator,
    into: &mut Vec<u8>,
) -> Result<(), AllocError>
    ensures ok { OnOk result (into.new.items
        ≡ into.old.items ++ text_of (choices generator.old.state)) }
    ensures err { OnErr result (Grew into.old.items into.new.items) }
{
    for i in 0..CHOICES {
        let line = chosen_line(alloc, generator.value())?;
        put(into, line)?;
    }
    Ok(())
}

/// Appends a line and its line feed. The line is let go here, so that those who make lines don't.
fn put(into: &mut Vec<u8>, line: Line) -> Result<(), AllocError>
    ensures ok { OnOk result (into.new.items ≡ into.old.items ++ (written line ++ 10 ∷ [])) }
    ensures err { OnErr result (Grew into.old.items into.new.items) }
{
    put_text(into, &line)
}

/// Appends the text of a line and its line feed.
fn put_text(into: &mut Vec<u8>, line: &Line) -> Result<(), AllocError>
    ensures ok { OnOk result (into.new.items ≡ into.old.items ++ (written line.now ++ 10 ∷ [])) }
    ensures err { OnErr result (Grew into.old.items into.new.items) }
{
    write_line(line, into)?;
    into.push(b'\n')?;
    Ok(())
}
