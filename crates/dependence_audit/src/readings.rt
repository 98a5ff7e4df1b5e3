//! The reading of one entry of a block.

ghost use Rattle.std.specs.Prelude.{◌≡◌, ◌++◌, ◌∷◌, [], IfOk, List, ℕ, Some};
ghost use Rattle.suite_base.specs.Words.{words};
ghost use Rattle.scop_data.specs.LineWords.{are_same};
ghost use Rattle.dependence_blocks.specs.Blocks.{entry_words};
ghost use Rattle.dependence_audit.specs.Readings as spec;

use crate::comparing::{header_is, row_is, words_are};
use crate::content_lines::ContentLines;
use dependence_blocks::kind_word;
use dependence_systems::Dep;
use farkas_cert::{Certificate, TooHeavy, check, read_cert};
use itoa::Buffer;
use relation_core::{Part, PartRow};
use std::alloc::Global;
use suite_base::NoMemory;

/// What an entry was found to be.
#[derive(Clone, Copy, Debug, PartialEq, Eq)]
pub enum Finding {
    /// It is the defined one, and kept.
    Kept,
    /// It is the defined one, and dropped.
    Dropped,
    /// It is not the defined one.
    Wrong,
    /// Its certificate is too heavy to check.
    Heavy,
}

/// Reads an entry, whose system is `system`. Where it is the defined one, its lines have been taken.
pub fn read_entry(
    alloc: Global,
    entry: &Dep,
    system: &Part,
    lines: &mut ContentLines<'_>,
) -> Result<Finding, NoMemory>
    ensures { IfOk result (λ found. spec.IsFound (spec.read_entry entry.now system.now lines.old) found lines.new) }
{
    let Some(line) = lines.next() else {
        return Ok(Finding::Wrong);
    };
    if head_is(line, entry, b"kept") {
        return Ok(read_kept(system, lines));
    }
    if head_is(line, entry, b"dropped") {
        return read_dropped(alloc, system, lines);
    }
    Ok(Finding::Wrong)
}

// Whether the words of a line are those of an entry and a verdict.
fn head_is(line: &[u8], entry: &Dep, verdict: &'static [u8]) -> bool
    ensures { result ≡ are_same (words line.now) (entry_words entry.now ++ verdict.now ∷ []) }
{
    let mut source_digits = Buffer::new();
    let mut target_digits = Buffer::new();
    let mut source_access_digits = Buffer::new();
    let mut target_access_digits = Buffer::new();
    let mut source_part_digits = Buffer::new();
    let mut target_part_digits = Buffer::new();
    let mut level_digits = Buffer::new();
    let source = source_digits.format(entry.source).as_bytes();
    let target = target_digits.format(entry.target).as_bytes();
    let source_access = source_access_digits.format(entry.source_access).as_bytes();
    let target_access = target_access_digits.format(entry.target_access).as_bytes();
    let source_part = source_part_digits.format(entry.source_part).as_bytes();
    let target_part = target_part_digits.format(entry.target_part).as_bytes();
    let level = level_digits.format(entry.level).as_bytes();
    let kind = kind_word(entry.kind);
    let expected: [&[u8]; 9] = [
        kind,
        source,
        target,
        source_access,
        target_access,
        source_part,
        target_part,
        level,
        verdict,
    ];
    words_are(line, &expected)
}

// Reads the six numbers and the rows of a system.
fn read_kept(system: &Part, lines: &mut ContentLines<'_>) -> Finding
    ensures { spec.IsFound (spec.read_kept system.now lines.old) result lines.new }
{
    let Some(line) = lines.next() else {
        return Finding::Wrong;
    };
    if header_is(line, system) {
        read_rows(system.rows(), lines)
    } else {
        Finding::Wrong
    }
}

// Reads rows, a line each.
fn read_rows(rows: &[PartRow], lines: &mut ContentLines<'_>) -> Finding
    ensures { spec.IsFound (spec.read_rows rows.now lines.old) result lines.new }
{
    for row in rows {
        if !takes_row(row, lines) {
            return Finding::Wrong;
        }
    }
    Finding::Kept
}

// Takes a line, and answers whether it is that of this row.
fn takes_row(row: &PartRow, lines: &mut ContentLines<'_>) -> bool
    ensures { spec.TakesRow row.now lines.old result lines.new }
{
    match lines.next() {
        None => false,
        Some(line) => row_is(line, row),
    }
}

// Reads the multipliers of a system and checks them.
fn read_dropped(
    alloc: Global,
    system: &Part,
    lines: &mut ContentLines<'_>,
) -> Result<Finding, NoMemory>
    ensures { IfOk result (λ found. spec.IsFound (spec.read_dropped system.now lines.old) found lines.new) }
{
    let Some(line) = lines.next() else {
        return Ok(Finding::Wrong);
    };
    let Some(certificate) = read_cert(alloc, line)? else {
        return Ok(Finding::Wrong);
    };
    Ok(judge(system, &certificate))
}

// Checks the multipliers of a system.
fn judge(system: &Part, certificate: &Certificate) -> Finding
    ensures { (lines : List (List ℕ)) → spec.IsFound (spec.judged system.now (Some certificate.now) lines) result lines }
{
    match check(system, certificate) {
        Err(TooHeavy) => Finding::Heavy,
        Ok(false) => Finding::Wrong,
        Ok(true) => Finding::Dropped,
    }
}
