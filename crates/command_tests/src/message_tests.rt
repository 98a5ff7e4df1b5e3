//! Each kind of message with each of its writes failing in turn.

use crate::runs::{Fault, PLAIN, Setting, run_suite};
use crate::texts::{ONE_LOOP, ONE_LOOP_SCOP, STENCIL_SCOP};
use std::alloc::Global;
use std::process::Abort;
use std::test::Fail;
use suite_base::{NoMemory, Place, Refusal, Where, Which};
use suite_cli::Outcome;

/// A run that does not end in `Done`, and what is written.
struct Told {
    command: &'static [&'static str],
    texts: &'static [&'static [u8]],
    /// The call that fails.
    fault: Fault,
    outcome: Outcome,
    output: &'static [u8],
    message: &'static [u8],
}

/// Two statements of one beta vector.
const CLASH: &[u8] =
    b"<OpenScop>\nC\nCONTEXT\n0 2 0 0 0 0\n0\n2\n2\nDOMAIN\n0 2 0 0 0 0\nSCATTERING\n1 3 1 0 0 0\n0 -1 0\n0\n2\nDOMAIN\n0 2 0 0 0 0\nSCATTERING\n1 3 1 0 0 0\n0 -1 0\n0\n</OpenScop>\n";

/// A run for each outcome but `Done` and want of memory, and a refusal for each kind of fields.
const TOLD: [Told; 11] = [
    Told {
        command: &["frob"],
        texts: &[b"x"],
        fault: Fault::Nothing,
        outcome: Outcome::Usage,
        output: b"",
        message: b"suite: usage\n",
    },
    Told {
        command: &["scop"],
        texts: &[ONE_LOOP_SCOP],
        fault: Fault::Files(2),
        outcome: Outcome::ReadFault,
        output: b"",
        message: b"suite: read fault\n",
    },
    Told {
        command: &["clan"],
        texts: &[ONE_LOOP],
        fault: Fault::Output(3),
        outcome: Outcome::WriteFault,
        output: b"<OpenScop>\nC\nC",
        message: b"suite: write fault\n",
    },
    Told {
        command: &["clan"],
        texts: &[b""],
        fault: Fault::Nothing,
        outcome: Outcome::Refused {
            file: 1,
            refusal: Refusal::NoRegion,
        },
        output: b"",
        message: b"suite: refused 1 2 NoRegion\n",
    },
    Told {
        command: &["clay"],
        texts: &[b"", b""],
        fault: Fault::Nothing,
        outcome: Outcome::Refused {
            file: 2,
            refusal: Refusal::BadScop(1),
        },
        output: b"",
        message: b"suite: refused 2 11 BadScop 1\n",
    },
    Told {
        command: &["scop"],
        texts: &[b"<OpenScop>\nC\nCONTEXT\n0 170141183460469231731687303715884105728 0 0 0 1\n"],
        fault: Fault::Nothing,
        outcome: Outcome::Refused {
            file: 1,
            refusal: Refusal::NumberTooLarge(Place { line: 4, column: 3 }),
        },
        output: b"",
        message: b"suite: refused 1 12 NumberTooLarge 4 3\n",
    },
    Told {
        command: &["scop"],
        texts: &[CLASH],
        fault: Fault::Nothing,
        outcome: Outcome::Refused {
            file: 1,
            refusal: Refusal::BetaClash(1, 2),
        },
        output: b"",
        message: b"suite: refused 1 15 BetaClash 1 2\n",
    },
    Told {
        command: &["candl"],
        texts: &[b"<OpenScop>\nC\nCONTEXT\n300 3 0 0 0 1\n"],
        fault: Fault::Nothing,
        outcome: Outcome::Refused {
            file: 1,
            refusal: Refusal::Limit(Which::Rows, 0),
        },
        output: b"",
        message: b"suite: refused 1 17 Limit rows 0\n",
    },
    Told {
        command: &["clay"],
        texts: &[b"fuse([0]", ONE_LOOP_SCOP],
        fault: Fault::Nothing,
        outcome: Outcome::Refused {
            file: 1,
            refusal: Refusal::BadScript(Place { line: 1, column: 9 }),
        },
        output: b"",
        message: b"suite: refused 1 18 BadScript 1 9\n",
    },
    Told {
        command: &["clay"],
        texts: &[
            b"shift([0], 1, [0], 170141183460469231731687303715884105727); shift([0], 1, [0], 1);",
            ONE_LOOP_SCOP,
        ],
        fault: Fault::Nothing,
        outcome: Outcome::Refused {
            file: 1,
            refusal: Refusal::Overflow(Where::Command, 2),
        },
        output: b"",
        message: b"suite: refused 1 23 Overflow command 2\n",
    },
    Told {
        command: &["chlore"],
        texts: &[ONE_LOOP_SCOP, STENCIL_SCOP],
        fault: Fault::Nothing,
        outcome: Outcome::Refused {
            file: 0,
            refusal: Refusal::Different(1),
        },
        output: b"",
        message: b"suite: refused 0 26 Different 1\n",
    },
];

#[test]
fn messages_are_written(rt: HostRuntime) -> Result<(), Fail> {
    for told in &TOLD {
        let setting = Setting {
            fault: told.fault,
            ..PLAIN
        };
        let run = run_suite(rt.alloc(), told.command, told.texts, setting)?;
        assert_eq!(rt; run.outcome, told.outcome);
        assert_eq!(rt; run.out.bytes(), told.output);
        assert_eq!(rt; run.err.bytes(), told.message);
    }
    Ok(())
}

/// Whether a run whose message stops at its write `k` ends as told. The message goes out in pieces, and those before that
/// write were written: none before the first, and all before the thirtieth.
fn loses_message(alloc: Global, told: &Told, k: u64) -> Result<bool, NoMemory> {
    let setting = Setting {
        fault: told.fault,
        lost: Some(k),
        ..PLAIN
    };
    let run = run_suite(alloc, told.command, told.texts, setting)?;
    let written = run.err.bytes();
    let is_right_part = if k == 1 {
        written.is_empty()
    } else if k == 30 {
        written == told.message
    } else {
        told.message.starts_with(written)
    };
    Ok(run.outcome == told.outcome && run.out.bytes() == told.output && is_right_part)
}

#[test]
fn lost_messages_change_no_outcome(rt: HostRuntime) -> Result<(), Fail> {
    for told in &TOLD {
        for k in 1..=30u64 {
            assert!(rt;
                loses_message(rt.alloc(), told, k)?,
                "{:?} {k}",
                told.outcome
            );
        }
    }
    Ok(())
}
