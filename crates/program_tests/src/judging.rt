//! Lines are judged one by one, also behind one that is refused.

use std::alloc::Global;
use transcript_check::{Check, CheckError, CheckFault};

/// A line, and why it is refused, if it is.
struct Line {
    line: &'static str,
    why: Option<CheckFault>,
}

/// A refused claim uses no number, a refused install names no key, and a refused life no station.
const LINES: [Line; 10] = [
    Line {
        line: "life A 000000000000000000000001",
        why: None,
    },
    Line {
        line: "claim A an 0 epoch 1 pn 1",
        why: Some(CheckFault::Orphan),
    },
    Line {
        line: "install A 000000000000000000000001 1 an 0 epoch 1 sak 00000000000000000000000000000003",
        why: None,
    },
    Line {
        line: "install A 000000000000000000000001 1 an 1 epoch 1 sak 00000000000000000000000000000003",
        why: Some(CheckFault::Doubled),
    },
    Line {
        line: "claim A an 0 epoch 1 pn 1",
        why: None,
    },
    Line {
        line: "life B 00",
        why: Some(CheckFault::Unread),
    },
    Line {
        line: "tick B 1 next 0",
        why: Some(CheckFault::Unread),
    },
    Line {
        line: "life B 000000000000000000000002",
        why: None,
    },
    Line {
        line: "claim B an 0 epoch 1 pn 1",
        why: Some(CheckFault::Orphan),
    },
    Line {
        line: "tick B 1 next 0",
        why: None,
    },
];

/// What a line is answered.
fn answer(alloc: Global, check: &mut Check, line: &str) -> Result<(), CheckError> {
    if check.count() == u64::MAX {
        return Err(CheckError::Memory);
    }
    check.line(alloc, line.as_bytes())
}

/// What a refusal is.
fn expected(why: Option<CheckFault>) -> Result<(), CheckError> {
    match why {
        Some(why) => Err(CheckError::Refused(why)),
        None => Ok(()),
    }
}

#[test]
fn remembers_nothing_of_a_refused_line(rt: HostRuntime) {
    let mut check = Check::new(rt.alloc()).expect(&rt, "memory");
    for line in &LINES {
        let answer = answer(rt.alloc(), &mut check, line.line);
        assert_eq!(rt; answer, expected(line.why), "{}", line.line);
    }
    assert_eq!(rt; check.count(), 5);
    assert!(rt; check.verdict().is_clean());
}
