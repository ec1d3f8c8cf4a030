//! The top call: words are read, and what they order is carried out.

ghost use Rattle.std.specs.Prelude.{◌≡◌, ◌≢◌, ◌⊎◌, ℕ, Bool, map, string_bytes};
ghost use Rattle.lan_base.specs.Faults.{Rose};
ghost use Rattle.capture_audit.specs.declared.asks.Asks.{Asks};
ghost use Rattle.rollover_program.specs.declared.words.Order.{Order};
ghost use Rattle.rollover_program.specs.declared.words.Order.TheVariants as orders;
ghost use Rattle.rollover_program.specs.Words.{IsNumbered, IsUsage, Orders, words_of};
ghost use Rattle.rollover_program.specs.Outside.{outside};
ghost use Rattle.rollover_program.specs.Carried.{CarriesOut, Completes, IsCarriedOut};
ghost use Rattle.rollover_program.specs.Turned.{ShowsInTurn};
ghost use Rattle.rollover_program.specs.commands.Audit.{IsCompleteAudit};
ghost use Rattle.rollover_program.specs.inside.Answering.{status_of_refusal};

use crate::commands::audit::{audit, draw_audit};
use crate::commands::capture::capture;
use crate::commands::check::check;
use crate::commands::dissect::dissect;
use crate::commands::draw::draw;
use crate::commands::make::make;
use crate::commands::roll::roll;
use crate::commands::run::run;
use crate::commands::try_made::try_made;
use crate::laws::{law_tidy_runs_are_promised, law_tidy_worlds_of_two_groups_are_promised};
use crate::status::Status;
use crate::words::{Order, Refusal, read_order};
use lan_base::{Sink, Source};
use lan_schedule::law_lines_leave_a_tidy_world;
use replay::AnyGate;
use std::alloc::Global;
use std::thread::Threads;
use twin_schedule::law_groups_of_tidy_worlds_are_sound;

/// Carries out what words order, which come without the program's name.
///
/// `run` reads a trace from the source to its end, performs each line as soon as it has ended, and
/// writes the transcript to the sink, that of each event before the next one happens. With
/// `--summary` it writes nothing before the end, and then the line that says how many facts there
/// were of each kind. `make N` writes the trace that is made of a number from 1 to 9999. `try N`
/// performs that trace for its summary line. These two do not read the source. The workers of a race
/// run on threads. The gate is passed at each step of a worker, and after each move of a station's
/// current word. `check` reads a transcript from the source to its
/// end, whoever wrote it, judges each line as soon as it has ended, and writes the verdict at the
/// end. `capture` writes the file of a transcript's frames, each record as soon as its line has ended.
/// `dissect` reads a file of captured packets, and tells each packet in one line. `roll` reads a trace
/// of two groups, and performs it as `run` does one of a single group. It writes the transcript of
/// both, each line behind the number of its group. `draw` reads a transcript as `check` does, and
/// writes the picture of its keys at the end. `audit` reads a key text and the capture behind it, and
/// writes the report; with `--packets` each packet has a line, with `--keys` the keys stand in it, and with
/// `--strict` a protected frame is to be right, and none wrong or undecided. With `--draw` it writes the
/// picture in place of the report. The files that its words name are no matter of this call (`files_of`,
/// `Joined`). What is said of each command is a row of `CarriesOut`, and one of `EndsUndisturbed`.
pub fn rollover<T: Threads + Sync, S: Source, K: Sink>(
    rt: &T,
    alloc: Global,
    words: &[String],
    source: &mut S,
    sink: &mut K,
    gate: &AnyGate,
) -> Status
    // The words are no command exactly where clap refuses them, unless memory runs out; with such words
    // nothing is read, written or counted, whatever the status. All other words order something, with a
    // number from 1 to 9999 where one is asked for; the plain words for an order do.
    ensures usage { result ≡ Status.Usage → IsUsage (map string_bytes words.now) }
    ensures refused { IsUsage (map string_bytes words.now)
        → (result ≡ Status.Usage) ⊎ (result ≡ Status.Memory) }
    ensures untouched { IsUsage (map string_bytes words.now)
        → (source.new ≡ source.old) × (sink.new ≡ sink.old) }
    ensures ordered { (IsUsage (map string_bytes words.now) → ⊥)
        → (order : Order) × Orders (map string_bytes words.now) order × IsNumbered order }
    ensures named { (order : Order) → IsNumbered order
        → map string_bytes words.now ≡ words_of order
        → Orders (map string_bytes words.now) order × (result ≢ Status.Usage) }

    // Whatever the end, what was read and written, and why it came, says each order's row.
    ensures carried { (order : Order) → Orders (map string_bytes words.now) order → CarriesOut order
        (outside S.Source K.Sink source.old source.new sink.old sink.new) result }
    ensures unread { (n : ℕ) → Orders (map string_bytes words.now) (orders.Make n)
        ⊎ Orders (map string_bytes words.now) (orders.Try n) → source.new ≡ source.old }

    // Whatever the source tells, `run`, `roll` and `capture` show what ends in what one read gives before
    // the next one; or memory ran out before anything was read or written.
    ensures turned { (order : Order) → Orders (map string_bytes words.now) order
        → ((source.new ≡ source.old) × (sink.new ≡ sink.old) × (result ≡ Status.Memory))
        ⊎ ShowsInTurn S.Gave order source.old source.new
        (outside S.Source K.Sink source.old source.new sink.old sink.new) result }

    // Faults are those of the outside, whatever it tells.
    ensures read_cause { result ≡ Status.ReadFault
        → Rose (S.faults source.old) (S.faults source.new) }
    ensures write_cause { result ≡ Status.WriteFault
        → Rose (K.faults sink.old) (K.faults sink.new) }

    // `roll` finds no frame forged, since no line of a trace of two groups injects one.
    ensures unforged { (line : ℕ) → Orders (map string_bytes words.now) orders.Roll
        → result ≢ Status.Forged line }

    // Without a fault each order ends as its row says, unless memory runs out.
    ensures complete { (order : Order) → Orders (map string_bytes words.now) order → Completes order
        (outside S.Source K.Sink source.old source.new sink.old sink.new) result }
{
    law_tidy_runs_are_promised();
    law_lines_leave_a_tidy_world();
    law_tidy_worlds_of_two_groups_are_promised();
    law_groups_of_tidy_worlds_are_sound();
    match read_order(alloc, words) {
        Ok(order) => carry_out(rt, alloc, order, source, sink, gate),
        Err(refusal) => status_of_refusal(refusal),
    }
}

/// Carries an order out. Only `make` and `try` leave the source unread.
fn carry_out<T: Threads + Sync, S: Source, K: Sink>(
    rt: &T,
    alloc: Global,
    order: Order,
    source: &mut S,
    sink: &mut K,
    gate: &AnyGate,
) -> Status
    ensures carried { IsCarriedOut order
        (outside S.Source K.Sink source.old source.new sink.old sink.new) result }
    ensures turned { ShowsInTurn S.Gave order source.old source.new
        (outside S.Source K.Sink source.old source.new sink.old sink.new) result }
    ensures audited { (asks : Asks) (draws : Bool) → order ≡ orders.Audit asks draws → IsCompleteAudit asks
        (outside S.Source K.Sink source.old source.new sink.old sink.new) result }
    ensures unread { (n : ℕ) → (order ≡ orders.Make n) ⊎ (order ≡ orders.Try n)
        → source.new ≡ source.old }
    ensures unforged { (line : ℕ) → order ≡ orders.Roll
        → result ≢ Status.Forged line }
{
    match order {
        Order::Run { summary } => run(rt, alloc, summary, source, sink, gate),
        Order::Make { number } => make(alloc, number, sink),
        Order::Try { number } => try_made(rt, alloc, number, sink, gate),
        Order::Check => check(alloc, source, sink),
        Order::Capture => capture(alloc, source, sink),
        Order::Dissect => dissect(alloc, source, sink),
        Order::Roll => roll(alloc, source, sink),
        Order::Draw => draw(alloc, source, sink),
        Order::Audit { asks, draws: false } => audit(rt, alloc, asks, source, sink),
        Order::Audit { asks, draws: true } => draw_audit(rt, alloc, asks, source, sink),
    }
}

/// The status of words that order nothing.
fn status_of_refusal(refusal: Refusal) -> Status
    ensures { result ≡ status_of_refusal refusal }
{
    match refusal {
        Refusal::Usage => Status::Usage,
        Refusal::Memory => Status::Memory,
    }
}
