//! SCoPs of many statements in twelve loops, whose schedules are recovered from themselves and timed.

use crate::scops::{END, head, scop_in};
use itoa::Buffer;
use schedule_recovery::recover;
use std::alloc::Global;
use std::test::Fail;
use std::time::{Clock, Instant};
use suite_base::{NoMemory, Text};

const LOOPS: usize = 12;

const STATEMENT: &[u8] = b"2\nDOMAIN\n0 14 12 0 0 0\nSCATTERING\n25 39 25 12 0 0\n";

// The entry of output `k` in the row of output `r`.
fn output_entry(r: usize, k: usize) -> &'static [u8] {
    if r == k { b" -1" } else { b" 0" }
}

// The entry of iterator `k` in the row of output `r`: the outputs are a beta and a level in turn, and a beta at last.
fn iterator_entry(r: usize, k: usize) -> &'static [u8] {
    if r % 2 == 1 && r / 2 == k {
        b" 1"
    } else {
        b" 0"
    }
}

// Appends the row of output `r`, whose constant is `beta`.
fn push_row(text: &mut Text, r: usize, beta: u32) -> Result<(), NoMemory> {
    let mut digits = Buffer::new();
    text.push(b'0')?;
    for k in 0..2 * LOOPS + 1 {
        text.push_bytes(output_entry(r, k))?;
    }
    for k in 0..LOOPS {
        text.push_bytes(iterator_entry(r, k))?;
    }
    text.push(b' ')?;
    text.push_bytes(digits.format(beta).as_bytes())?;
    text.push(b'\n')
}

// A SCoP of so many statements in twelve loops: in one nest, or each in its own.
fn nests(alloc: Global, count: u32, in_one: bool) -> Result<Text, NoMemory> {
    let counted = if in_one { 2 * LOOPS } else { 0 };
    let mut text = head(alloc, count)?;
    for k in 0..count {
        text.push_bytes(STATEMENT)?;
        for r in 0..2 * LOOPS + 1 {
            push_row(&mut text, r, if r == counted { k } else { 0 })?;
        }
        text.push_bytes(b"0\n")?;
    }
    text.push_bytes(END)?;
    Ok(text)
}

/// What a recovery found, and its time in nanoseconds.
#[derive(Clone, Copy, Debug)]
pub struct RecoveryTime {
    /// The commands of the script; none where there would be too many.
    pub commands: usize,
    pub spent: u128,
}

/// The time of a recovery of the schedules of so many statements in twelve loops from themselves; `None` where the text is
/// refused.
pub fn recovery_time(
    clock: &impl Clock,
    alloc: Global,
    count: u32,
    in_one: bool,
) -> Result<Option<RecoveryTime>, Fail> {
    let text = nests(alloc, count, in_one)?;
    let Some(scop) = scop_in(alloc, text.bytes()) else {
        return Ok(None);
    };
    let start = Instant::now(clock)?;
    let commands = match recover(alloc, &scop, &scop) {
        Ok(script) => script.len(),
        Err(_) => 0,
    };
    Ok(Some(RecoveryTime {
        commands,
        spent: start.elapsed(clock)?.as_nanos(),
    }))
}
