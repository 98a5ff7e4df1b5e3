//! Times of the certificate check, of the elimination, of the commands of a script, of the recovery of schedules, and of
//! lexing, parsing and translating C, on standard error. The names of files as arguments time the decisions of the
//! systems in them instead; of a SCoP, whose name ends in `.scop`, those of its dependence systems.
//! Standard output says only that the runs ended, so that it is always the same.
#![tactic(auto)]

mod dependences;
mod dice;
mod file_times;
mod nests;
mod recoveries;
mod regions;
mod rows;
mod runs;
mod scops;
mod scripts;
mod system_files;
mod systems;
mod times;
mod translations;

use dependences::dependence_time;
use file_times::file_times;
use nests::product;
use recoveries::recovery_time;
use regions::{assignments, statement_count, token_count};
use runs::{level_times, nest_totals};
use scripts::script_time;
use std::process::Abort;
use std::test::Fail;
use std::time::Instant;
use std::{env, fs};
use system_files::read_systems;
use times::{check_time, reduction_time};
use translations::{long_reads, translated_count};

const ROUNDS: u32 = 1_000;

fn main(rt: HostRuntime) -> Result<(), Fail> {
    let mut has_files = false;
    for name in env::args(&rt)?.skip(1) {
        if name.as_bytes().ends_with(b".scop") {
            time_scop(&rt, name.as_str())?;
        } else {
            time_file(&rt, name.as_str())?;
        }
        has_files = true;
    }
    if !has_files {
        time_all(&rt)?;
    }
    println!(rt; "the runs ended")?;
    Ok(())
}

// Times the dependence systems of a SCoP.
fn time_scop(rt: &HostRuntime, name: &str) -> Result<(), Fail> {
    let text = fs::read_to_string(rt, name)?;
    match dependence_time(rt, rt.alloc(), text.as_bytes(), ROUNDS)? {
        None => eprintln!(rt; "{name}: refused")?,
        Some(t) => eprintln!(rt;
            "{name}: {} systems, listed, built and decided {ROUNDS} times: {} us",
            t.systems,
            t.spent / 1_000
        )?,
    }
    Ok(())
}

// Times the recovery of schedules of so many statements in twelve loops.
fn time_recovery(rt: &HostRuntime, count: u32, in_one: bool) -> Result<(), Fail> {
    match recovery_time(rt, rt.alloc(), count, in_one)? {
        None => eprintln!(rt; "recovery of {count} statements: refused")?,
        Some(t) => eprintln!(rt;
            "recovery of {count} statements in 12 loops, {} commands: {} us",
            t.commands,
            t.spent / 1_000
        )?,
    }
    Ok(())
}

// Times the decisions of the systems of a file.
fn time_file(rt: &HostRuntime, name: &str) -> Result<(), Fail> {
    let text = fs::read_to_string(rt, name)?;
    let systems = read_systems(rt.alloc(), text.as_bytes())?;
    let t = file_times(rt, rt.alloc(), systems.as_slice())?;
    eprintln!(rt;
        "{name}: {} systems, {} with a point, {} empty, {} past a limit",
        t.systems, t.points, t.empty, t.limits
    )?;
    eprintln!(rt;
        "{name}: decide_by {} us, reduce and decide_with {} us over {} bases",
        t.alone / 1_000,
        t.shared / 1_000,
        t.runs
    )?;
    Ok(())
}

// Times what the program makes itself.
fn time_all(rt: &HostRuntime) -> Result<(), Fail> {
    let (spent, light) = check_time(rt, rt.alloc())?;
    eprintln!(rt; "check of 256 rows and 62 columns: {spent} ns, {light} of 1,000 in the range")?;

    let base = product(rt.alloc())?;
    let spent = reduction_time(rt, rt.alloc(), &base, ROUNDS)?;
    eprintln!(rt; "matrix product: reduce {spent} ns")?;
    for pair in ["WAR 1 4", "RAW 4 1", "WAW 4 4"] {
        for level in 0..3 {
            let t = level_times(rt, rt.alloc(), &base, level, ROUNDS)?;
            eprintln!(rt;
                "{pair} level {}: decide {} ns, decide_by {} ns, decide_with {} ns, {}",
                level + 1,
                t.dense,
                t.sparse,
                t.shared,
                t.end.words()
            )?;
        }
    }

    let t = nest_totals(rt, rt.alloc(), 1_000)?;
    eprintln!(rt;
        "1,000 nests: decide {} us, decide_by {} us, reduce {} us, decide_with {} us",
        t.dense / 1_000,
        t.sparse / 1_000,
        t.reduction / 1_000,
        t.shared / 1_000
    )?;
    eprintln!(rt;
        "1,000 nests: {} with a point, {} empty, {} past a limit",
        t.points, t.empty, t.limits
    )?;
    for count in [1, 32, 1_024] {
        match script_time(rt, rt.alloc(), count)? {
            None => eprintln!(rt; "4,096 commands on {count} statements: refused")?,
            Some(spent) => eprintln!(rt;
                "4,096 commands on {count} statements: {} us",
                spent / 1_000
            )?,
        }
    }
    time_recovery(rt, 1_024, false)?;
    time_recovery(rt, 1_024, true)?;
    time_recovery(rt, 171, true)?;

    let text = assignments(rt.alloc())?;
    let start = Instant::now(rt)?;
    let tokens = token_count(&text);
    let spent = start.elapsed(rt)?.as_micros();
    eprintln!(rt; "lexing of 16 MiB of assignments, {tokens} tokens: {spent} us")?;
    let start = Instant::now(rt)?;
    let statements = statement_count(rt.alloc(), &text);
    let spent = start.elapsed(rt)?.as_micros();
    eprintln!(rt; "lexing and parsing of the same, {statements} statements: {spent} us")?;
    let start = Instant::now(rt)?;
    let translated = translated_count(rt.alloc(), &text);
    let spent = start.elapsed(rt)?.as_micros();
    eprintln!(rt;
        "translation of the same, too many statements, {translated} translated: {spent} us"
    )?;

    let text = long_reads(rt.alloc())?;
    let start = Instant::now(rt)?;
    let translated = translated_count(rt.alloc(), &text);
    let spent = start.elapsed(rt)?.as_micros();
    eprintln!(rt; "translation of 16 MiB of reads, {translated} statements: {spent} us")?;
    Ok(())
}
