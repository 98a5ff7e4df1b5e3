//! Parts: a header and its rows.

ghost use Rattle.std.specs.Prelude.{◌≡◌, ◌-◌, ◌+◌, [], ◌∷◌, ◌++◌, length, OnOk, IfErr};
ghost use Rattle.relation_core.specs.Systems.{width};
ghost use Rattle.scop_reader.specs.Lines.{words_of};
ghost use Rattle.scop_reader.specs.Reading.{Reads, numbers_in, is_any};
ghost use Rattle.scop_reader.specs.Rules as spec;
ghost use Rattle.scop_reader.specs.Headers.{IsSmallRole};
ghost use Rattle.scop_reader.specs.Rows.{GivesRow, ReadsRow, ReadsRows, GivesTo};

use crate::cursors::{Cursor, bad_line};
use crate::headers::header_line;
use crate::line_words::{LineWords, has_words};
use crate::number_words::{any_number, kind_from, kind_number};
use crate::roles::Role;
use crate::text_lines::TextLine;
use relation_core::{Part, RowKind};
use row_core::Coeff;
use std::alloc::Global;
use suite_base::Fail;

// Appends a number to `entries`.
fn push_entry(entries: &mut Vec<Coeff>, entry: Coeff) -> Result<(), Fail>
    ensures ok { OnOk result (entries.new.items ≡ entries.old.items ++ entry ∷ []) }
    ensures err { IfErr result (λ e. e ≡ Fail.Memory) }
{
    if entries.push(entry).is_err() {
        return Err(Fail::Memory);
    }
    Ok(())
}

// The numbers of the words that are left, put into `entries`, which is empty.
fn push_entries(
    line: &TextLine<'_>,
    words: &mut LineWords<'_>,
    entries: &mut Vec<Coeff>,
) -> Result<(), Fail>
    requires { entries.old.items ≡ [] }
    ensures numbers { GivesTo (numbers_in line.now is_any words.old) result entries.new.items }
    ensures size { OnOk result (length entries.new.items ≡ length words.old) }
{
    while let Some(word) = words.next() {
        let entry = any_number(line, &word)?;
        push_entry(entries, entry)?;
    }
    Ok(())
}

// The kind of the row that a line has; its other numbers are put into `entries`, which is empty.
fn row_entries(line: &TextLine<'_>, entries: &mut Vec<Coeff>) -> Result<RowKind, Fail>
    requires { entries.old.items ≡ [] }
    ensures row { GivesRow (spec.row_numbers line.now (words_of line.now.bytes)) result entries.new.items }
    ensures size { OnOk result (length entries.new.items ≡ length (words_of line.now.bytes) - 1) }
{
    let mut words = LineWords::new(line);
    let Some(first) = words.next() else {
        return Ok(RowKind::Equal);
    };
    let kind = kind_number(line, &first)?;
    push_entries(line, &mut words, entries)?;
    Ok(kind_from(kind))
}

// Takes a row of so many numbers: answers its kind, and puts its other numbers into `entries`.
#[tactic(auto, unfolding(crate::specs::Rules::row_line))]
fn row(cursor: &mut Cursor<'_>, columns: usize, entries: &mut Vec<Coeff>) -> Result<RowKind, Fail>
    ensures reads { ReadsRow (spec.row_line columns cursor.old) result entries.new.items cursor.new }
    ensures size { OnOk result (length entries.new.items ≡ columns - 1) }
{
    let line = cursor.said_line()?;
    if !has_words(&line, columns) {
        return Err(bad_line(line.number()));
    }
    entries.clear();
    row_entries(&line, entries)
}

// The rows of a part behind its header.
fn rows_of(
    cursor: &mut Cursor<'_>,
    columns: usize,
    rows: usize,
    entries: &mut Vec<Coeff>,
    part: &mut Part,
) -> Result<(), Fail>
    requires width { columns ≡ width part.old.shape + 1 }
    requires none { part.old.rows ≡ [] }
    ensures { ReadsRows (spec.rows_from columns rows [] cursor.old) part.old.shape result part.new cursor.new }
{
    for _turn in 0..rows {
        let kind = row(cursor, columns, entries)?;
        part.push_row(kind, entries.as_slice())?;
    }
    Ok(())
}

/// The most items that a list begins with room for where a text says how many follow: no more than a first item would
/// reserve, since the text may lie.
pub const FIRST_ROOM: usize = 4;

/// Takes a part of this role, of statement `k` or of the context where `k` is 0. What `entries` has is
/// not kept.
#[tactic(auto, unfolding(crate::specs::Rules::part))]
pub fn part(
    alloc: Global,
    cursor: &mut Cursor<'_>,
    role: Role,
    k: u32,
    entries: &mut Vec<Coeff>,
) -> Result<Part, Fail>
    requires { IsSmallRole role }
    ensures { Reads (spec.part role k cursor.old) result cursor.new }
{
    let header = header_line(cursor, role, k)?;
    let room = header.rows().min(FIRST_ROOM);
    let mut part = Part::with_capacity(alloc, header.shape(), room)?;
    rows_of(cursor, header.columns(), header.rows(), entries, &mut part)?;
    Ok(part)
}
