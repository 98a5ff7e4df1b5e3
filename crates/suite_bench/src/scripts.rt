//! A long script on a SCoP of many statements, which is timed through the commands.

use crate::scops::{END, head, scop_in};
use clay_commands::apply;
use clay_script::read_script;
use itoa::Buffer;
use std::alloc::Global;
use std::test::Fail;
use std::time::{Clock, Instant};
use suite_base::{MAX_COMMANDS, MAX_INPUT, NoMemory, Text};

/// Two commands that each change all statements, and leave their numbers small.
const PAIR: &[u8] = b"shift([], 1, [], 1);\nshift([], 1, [], -1);\n";

const STATEMENT: &[u8] = b"2\nDOMAIN\n1 3 1 0 0 0\n1 1 0\nSCATTERING\n3 6 3 1 0 0\n0 -1 0 0 0 ";

const STATEMENT_END: &[u8] = b"\n0 0 -1 0 1 0\n0 0 0 -1 0 0\n0\n";

// A script of 4,096 commands.
fn long_script(alloc: Global) -> Result<Text, NoMemory> {
    let mut text = Text::new(alloc);
    for _ in 0..MAX_COMMANDS / 2 {
        text.push_bytes(PAIR)?;
    }
    Ok(text)
}

// A SCoP of so many statements, each in a loop of its own.
fn loops(alloc: Global, count: u32) -> Result<Text, NoMemory> {
    let mut digits = Buffer::new();
    let mut text = head(alloc, count)?;
    for k in 0..count {
        text.push_bytes(STATEMENT)?;
        text.push_bytes(digits.format(k).as_bytes())?;
        text.push_bytes(STATEMENT_END)?;
    }
    text.push_bytes(END)?;
    Ok(text)
}

/// The time in which 4,096 commands are carried out on so many statements, in nanoseconds; `None` where a text or a
/// command is refused.
pub fn script_time(clock: &impl Clock, alloc: Global, count: u32) -> Result<Option<u128>, Fail> {
    let script = long_script(alloc)?;
    let scop = loops(alloc, count)?;
    if script.bytes().len() > MAX_INPUT {
        return Ok(None);
    }
    let Ok(script) = read_script(alloc, script.bytes()) else {
        return Ok(None);
    };
    let Some(scop) = scop_in(alloc, scop.bytes()) else {
        return Ok(None);
    };
    let start = Instant::now(clock)?;
    if apply(alloc, &scop, &script).is_err() {
        return Ok(None);
    }
    Ok(Some(start.elapsed(clock)?.as_nanos()))
}
