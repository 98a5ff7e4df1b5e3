//! Each command with each of its calls failing in turn.

use crate::examples::{DEMO, EXAMPLES, Example};
use crate::runs::{Fault, PLAIN, Run, Setting, run_suite};
use crate::short_sinks::MOST;
use std::alloc::Global;
use std::process::Abort;
use std::test::Fail;
use suite_base::NoMemory;
use suite_cli::Outcome;

/// The calls that open a short file, read its bytes and read its end.
const CALLS_OF_A_FILE: u64 = 3;

/// The calls that read the bytes and the end of a short standard input.
const CALLS_OF_THE_INPUT: u64 = 2;

/// The calls of the files in a run without a fault.
fn calls_of_files(example: &Example, setting: Setting) -> u64 {
    let mut calls = 0u64;
    for k in 0..example.texts.len() {
        if setting.piped != Some(k) {
            calls = calls.saturating_add(CALLS_OF_A_FILE);
        }
    }
    if setting.is_padded && setting.piped != Some(0) && !example.texts.is_empty() {
        calls = calls.saturating_add(1);
    }
    calls
}

/// The calls of the input in a run without a fault.
fn calls_of_input(setting: Setting) -> u64 {
    match setting.piped {
        None => 0,
        Some(0) if setting.is_padded => CALLS_OF_THE_INPUT.saturating_add(1),
        Some(_) => CALLS_OF_THE_INPUT,
    }
}

/// Whether the run printed what the example prints.
fn is_done(run: &Run, example: &Example) -> bool {
    run.outcome == Outcome::Done && run.err.bytes().is_empty() && run.out.bytes() == example.output
}

/// Whether the run told of a read fault and wrote nothing.
fn is_read_fault(run: &Run) -> bool {
    run.outcome == Outcome::ReadFault
        && run.err.bytes() == b"suite: read fault\n".as_slice()
        && run.out.bytes().is_empty()
}

/// Whether the run told of a write fault and wrote this first part.
fn is_write_fault(run: &Run, part: &[u8]) -> bool {
    run.outcome == Outcome::WriteFault
        && run.err.bytes() == b"suite: write fault\n".as_slice()
        && run.out.bytes() == part
}

/// The first `n` bytes, or all where there are fewer.
fn first_part(bytes: &[u8], n: usize) -> &[u8] {
    &bytes[..n.min(bytes.len())]
}

/// Whether the example, with call `k` of an object failing that is called `calls` times, ends as it has to. A run that is
/// not hit writes no message, so that none of it can fail.
fn ends_well(
    alloc: Global,
    example: &Example,
    setting: Setting,
    k: u64,
    calls: u64,
) -> Result<bool, NoMemory> {
    if k <= calls {
        let run = run_suite(alloc, example.command, example.texts, setting)?;
        return Ok(is_read_fault(&run));
    }
    let setting = Setting {
        lost: Some(1),
        ..setting
    };
    let run = run_suite(alloc, example.command, example.texts, setting)?;
    Ok(is_done(&run, example))
}

/// Runs the example with call 1, 2 and so on of the files and of the input failing, up to the first that is not made.
/// What is not named is not called.
fn reads_fail(
    rt: &impl Abort,
    alloc: Global,
    example: &Example,
    setting: Setting,
) -> Result<(), Fail> {
    let of_files = calls_of_files(example, setting);
    for k in 1..=of_files.saturating_add(1) {
        let setting = Setting {
            fault: Fault::Files(k),
            ..setting
        };
        assert!(rt;
            ends_well(alloc, example, setting, k, of_files)?,
            "{setting:?}"
        );
    }
    let of_input = calls_of_input(setting);
    for k in 1..=of_input.saturating_add(1) {
        let setting = Setting {
            fault: Fault::Input(k),
            ..setting
        };
        assert!(rt;
            ends_well(alloc, example, setting, k, of_input)?,
            "{setting:?}"
        );
    }
    Ok(())
}

/// Runs the example with call 1, 2 and so on of the output failing, up to the first that is not made. The output goes out
/// in pieces of [`MOST`] bytes; those before the call that fails were written.
fn writes_fail(
    rt: &impl Abort,
    alloc: Global,
    example: &Example,
    setting: Setting,
) -> Result<(), Fail> {
    for k in 0..=example.output.len().div_ceil(MOST) {
        let setting = Setting {
            fault: Fault::Output((k as u64).saturating_add(1)),
            ..setting
        };
        let run = run_suite(alloc, example.command, example.texts, setting)?;
        let part = first_part(example.output, k.saturating_mul(MOST));
        let is_right = if part.len() < example.output.len() {
            is_write_fault(&run, part)
        } else {
            is_done(&run, example)
        };
        assert!(rt; is_right, "{setting:?}");
    }
    Ok(())
}

/// Each file by its name, and one of them from standard input.
const PIPED: [Option<usize>; 3] = [None, Some(0), Some(1)];

/// With and without newlines before the first file.
#[test]
fn a_call_that_reads_fails(rt: HostRuntime) -> Result<(), Fail> {
    for example in &EXAMPLES {
        for piped in PIPED {
            if piped.is_none_or(|k| k < example.texts.len()) {
                let setting = Setting { piped, ..PLAIN };
                reads_fail(&rt, rt.alloc(), example, setting)?;
                let setting = Setting {
                    is_padded: true,
                    ..setting
                };
                reads_fail(&rt, rt.alloc(), example, setting)?;
            }
        }
    }
    Ok(())
}

#[test]
fn a_call_that_writes_fails(rt: HostRuntime) -> Result<(), Fail> {
    for example in &EXAMPLES {
        writes_fail(&rt, rt.alloc(), example, PLAIN)?;
    }
    Ok(())
}

/// A demo opens no file and reads no input.
#[test]
fn a_demo_reads_nothing(rt: HostRuntime) -> Result<(), Fail> {
    let setting = Setting {
        fault: Fault::Reads,
        ..PLAIN
    };
    let run = run_suite(rt.alloc(), DEMO.command, DEMO.texts, setting)?;
    assert!(rt; is_done(&run, &DEMO));
    Ok(())
}
