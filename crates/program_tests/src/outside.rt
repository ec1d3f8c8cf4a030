//! Sources and sinks that fail or are interrupted.

use crate::{read_whole, write_whole};
use lan_base::{
    DropSink, Failed, KnownRead, KnownWrite, MemorySink, MemorySource, Octets, ReadEnd, Sink,
    Source, StdSink, StdSource, SteadySink, SteadySource, Unwritten, read_all, write_all,
};
use std::alloc::Global;
use std::io;
use std::io::{ErrorKind, Read, Write};
use std::process::Abort;

const WORD: &[u8] = b"octets";

/// A source of the word, with this piece. The call of the number `fail` fails; 0 is none's.
fn source(rt: &impl Abort, alloc: Global, piece: usize, fail: u64) -> MemorySource {
    let fails = Vec::from_slice(alloc, &[fail]).expect(rt, "memory");
    let octets = Octets::from_slice(alloc, WORD).expect(rt, "memory");
    MemorySource::new(octets, piece.max(1), fails)
}

/// How a source is made, the limit of what is read of it, and the answer: whether it
/// is the word.
struct Reading {
    piece: usize,
    fail: u64,
    limit: usize,
    want: Result<bool, ReadEnd>,
}

const READINGS: [Reading; 7] = [
    Reading {
        piece: 1,
        fail: 0,
        limit: 6,
        want: Ok(true),
    },
    Reading {
        piece: 4,
        fail: 0,
        limit: 6,
        want: Ok(true),
    },
    Reading {
        piece: 9,
        fail: 3,
        limit: 6,
        want: Ok(true),
    },
    Reading {
        piece: 4,
        fail: 0,
        limit: 5,
        want: Err(ReadEnd::Limit),
    },
    Reading {
        piece: 4,
        fail: 1,
        limit: 6,
        want: Err(ReadEnd::Failed),
    },
    Reading {
        piece: 4,
        fail: 2,
        limit: 6,
        want: Err(ReadEnd::Failed),
    },
    Reading {
        piece: 9,
        fail: 2,
        limit: 5,
        want: Err(ReadEnd::Limit),
    },
];

/// The word is read as the case says.
fn is_read(rt: &impl Abort, alloc: Global, case: &Reading) {
    let mut source = source(rt, alloc, case.piece, case.fail);
    let read = read_all(alloc, &mut source, case.limit).map(|octets| octets.as_slice() == WORD);
    assert_eq!(rt; read, case.want);
}

#[test]
fn reads_to_the_end(rt: HostRuntime) {
    for case in &READINGS {
        is_read(&rt, rt.alloc(), case);
    }
}

/// What a read of four octets answers, and moves.
struct Moved {
    count: Result<usize, Failed>,
    octets: [u8; 4],
}

/// A failing call takes nothing, so the octets go on where they stood.
const FAILING: [Moved; 4] = [
    Moved {
        count: Ok(4),
        octets: *b"octe",
    },
    Moved {
        count: Err(Failed),
        octets: [0; 4],
    },
    Moved {
        count: Ok(2),
        octets: *b"ts\0\0",
    },
    Moved {
        count: Ok(0),
        octets: [0; 4],
    },
];

const STEADY: [Moved; 3] = [
    Moved {
        count: Ok(4),
        octets: *b"octe",
    },
    Moved {
        count: Ok(2),
        octets: *b"ts\0\0",
    },
    Moved {
        count: Ok(0),
        octets: [0; 4],
    },
];

/// These are the answers of reads of four octets, and what they move.
fn reads<S: Source>(rt: &impl Abort, source: &mut S, wants: &[Moved]) {
    for want in wants {
        let mut into = [0; 4];
        assert_eq!(rt; source.read(&mut into), want.count);
        assert_eq!(rt; into, want.octets);
    }
}

#[test]
fn a_failing_read_takes_nothing(rt: HostRuntime) {
    reads(&rt, &mut source(&rt, rt.alloc(), 4, 2), &FAILING);
    let octets = Octets::from_slice(rt.alloc(), WORD).expect(&rt, "memory");
    reads(&rt, &mut SteadySource::new(octets), &STEADY);
}

/// The piece of a sink and its failing call, what it answers to the word, and how much of the word
/// it holds then.
struct Writing {
    piece: usize,
    fail: u64,
    want: Result<(), Unwritten>,
    held: usize,
}

const WRITINGS: [Writing; 4] = [
    Writing {
        piece: 1,
        fail: 0,
        want: Ok(()),
        held: 6,
    },
    Writing {
        piece: 4,
        fail: 3,
        want: Ok(()),
        held: 6,
    },
    Writing {
        piece: 4,
        fail: 2,
        want: Err(Unwritten::Failed),
        held: 4,
    },
    Writing {
        piece: 9,
        fail: 1,
        want: Err(Unwritten::Failed),
        held: 0,
    },
];

/// The word is written as the case says.
fn is_written(rt: &impl Abort, alloc: Global, case: &Writing) {
    let fails = Vec::from_slice(alloc, &[case.fail]).expect(rt, "memory");
    let mut sink = MemorySink::new(alloc, case.piece.max(1), fails);
    assert_eq!(rt; write_all(&mut sink, WORD), case.want);
    assert!(rt; WORD.starts_with(sink.held()));
    assert_eq!(rt; sink.held().len(), case.held);
}

#[test]
fn writes_whole_pieces(rt: HostRuntime) {
    for case in &WRITINGS {
        is_written(&rt, rt.alloc(), case);
    }
    let mut sink = SteadySink::new(rt.alloc());
    assert_eq!(rt; write_all(&mut sink, WORD), Ok(()));
    assert_eq!(rt; sink.held(), WORD);
    assert_eq!(rt; write_all(&mut DropSink, WORD), Ok(()));
}

/// A reader and a writer that is interrupted so often, and then breaks or goes on.
#[derive(Clone, Copy)]
struct Flaky {
    interruptions: u32,
    breaks: bool,
}

impl Flaky {
    /// What a read or a write meets first: an interruption, or a fault, or nothing.
    fn attempt(&mut self) -> io::Result<()> {
        if self.interruptions > 0 {
            self.interruptions -= 1;
            return Err(io::Error::new(ErrorKind::Interrupted, "interrupted"));
        }
        if self.breaks {
            return Err(io::Error::other("broken"));
        }
        Ok(())
    }
}

impl Read for Flaky {
    fn read(&mut self, into: &mut [u8]) -> io::Result<usize> {
        self.attempt()?;
        Ok(into.len().min(1))
    }
}

impl KnownRead for Flaky {
    ghost use Rattle.std.specs.Prelude.{refl};

    ghost steady = { λ _ _. refl };
}

impl Write for Flaky {
    fn write(&mut self, piece: &[u8]) -> io::Result<usize> {
        self.attempt()?;
        Ok(piece.len().min(1))
    }

    fn flush(&mut self) -> io::Result<()> {
        Ok(())
    }
}

impl KnownWrite for Flaky {
    ghost use Rattle.std.specs.Prelude.{refl};

    ghost steady = { λ _ _. refl };
}

/// A stream, and whether it is read and written through.
struct Interrupted {
    flaky: Flaky,
    works: bool,
}

const INTERRUPTED: [Interrupted; 4] = [
    Interrupted {
        flaky: Flaky {
            interruptions: 0,
            breaks: false,
        },
        works: true,
    },
    Interrupted {
        flaky: Flaky {
            interruptions: 3,
            breaks: false,
        },
        works: true,
    },
    Interrupted {
        flaky: Flaky {
            interruptions: 3,
            breaks: true,
        },
        works: false,
    },
    Interrupted {
        flaky: Flaky {
            interruptions: 1000,
            breaks: false,
        },
        works: false,
    },
];

#[test]
fn interruptions_are_tried_again(rt: HostRuntime) {
    for case in &INTERRUPTED {
        let read = StdSource::new(case.flaky).read(&mut [0; 2]);
        let written = StdSink::new(case.flaky).write(WORD);
        assert_eq!(rt; read == Ok(1), case.works);
        assert_eq!(rt; written == Ok(1), case.works);
    }
}

/// Readers and writers in memory are sources and sinks, and so are standard input and output.
#[test]
fn goes_through_std(rt: HostRuntime) {
    let octets = read_whole(rt.alloc(), WORD).expect(&rt, "memory");
    assert_eq!(rt; octets.as_slice(), WORD);
    let into = Vec::from_slice(rt.alloc(), b"of ").expect(&rt, "memory");
    assert!(rt; write_whole(into, WORD).is_ok());
    let mut full = [0; 4];
    let written = write_all(&mut StdSink::new(&mut full[..]), WORD);
    assert_eq!(rt; written, Err(Unwritten::Failed));
    let _source = StdSource::new(rt.reader());
    let written = write_all(&mut StdSink::new(io::writer(&rt)), b"");
    assert_eq!(rt; written, Ok(()));
}
