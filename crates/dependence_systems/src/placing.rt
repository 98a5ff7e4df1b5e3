//! Rows of the context, of a domain part or of floors in the columns of a system.

ghost use Rattle.std.specs.Prelude.{◌≡◌, ◌≤◌, ◌<◌, ◌+◌, ◌++◌, ◌∷◌, [], length, IfOk, OnOk};
ghost use Rattle.dependence_systems.specs.Comparisons.{reach_of, AreLong};
ghost use Rattle.dependence_systems.specs.Systems.{placed, placed_rows, shape_with};

use crate::widths::{Topic, Widths};
use relation_core::{Part, PartRow};
use row_core::{Coeff, DenseRow};
use std::alloc::Global;
use suite_base::NoMemory;

/// A row of the context.
fn context_row(
    alloc: Global,
    width: usize,
    w: &Widths,
    entries: &[Coeff],
) -> Result<DenseRow, NoMemory>
    ensures { IfOk result (λ row. row ≡ placed Topic.Context w.now entries.now) }
{
    let mut row = DenseRow::with_capacity(alloc, width)?;
    row.push_zeros(w.source)?;
    row.push_zeros(w.target)?;
    row.push_zeros(w.source_part)?;
    row.push_zeros(w.target_part)?;
    row.push_zeros(w.source_floors)?;
    row.push_zeros(w.target_floors)?;
    row.push_all(entries)?;
    Ok(row)
}

/// A row of the source's domain part.
fn source_part_row(
    alloc: Global,
    width: usize,
    w: &Widths,
    entries: &[Coeff],
) -> Result<DenseRow, NoMemory>
    requires { w.now.source + w.now.source_part ≤ length entries.now }
    ensures { IfOk result (λ row. row ≡ placed Topic.SourcePart w.now entries.now) }
{
    let (iterators, rest) = entries.split_at(w.source);
    let (locals, rest) = rest.split_at(w.source_part);
    let mut row = DenseRow::with_capacity(alloc, width)?;
    row.push_all(iterators)?;
    row.push_zeros(w.target)?;
    row.push_all(locals)?;
    row.push_zeros(w.target_part)?;
    row.push_zeros(w.source_floors)?;
    row.push_zeros(w.target_floors)?;
    row.push_all(rest)?;
    Ok(row)
}

/// A row of the target's domain part.
fn target_part_row(
    alloc: Global,
    width: usize,
    w: &Widths,
    entries: &[Coeff],
) -> Result<DenseRow, NoMemory>
    requires { w.now.target + w.now.target_part ≤ length entries.now }
    ensures { IfOk result (λ row. row ≡ placed Topic.TargetPart w.now entries.now) }
{
    let (iterators, rest) = entries.split_at(w.target);
    let (locals, rest) = rest.split_at(w.target_part);
    let mut row = DenseRow::with_capacity(alloc, width)?;
    row.push_zeros(w.source)?;
    row.push_all(iterators)?;
    row.push_zeros(w.source_part)?;
    row.push_all(locals)?;
    row.push_zeros(w.source_floors)?;
    row.push_zeros(w.target_floors)?;
    row.push_all(rest)?;
    Ok(row)
}

/// A row of the source's floors.
fn source_floors_row(
    alloc: Global,
    width: usize,
    w: &Widths,
    entries: &[Coeff],
) -> Result<DenseRow, NoMemory>
    requires { w.now.source + w.now.source_floors ≤ length entries.now }
    ensures { IfOk result (λ row. row ≡ placed Topic.SourceFloors w.now entries.now) }
{
    let (iterators, rest) = entries.split_at(w.source);
    let (floors, rest) = rest.split_at(w.source_floors);
    let mut row = DenseRow::with_capacity(alloc, width)?;
    row.push_all(iterators)?;
    row.push_zeros(w.target)?;
    row.push_zeros(w.source_part)?;
    row.push_zeros(w.target_part)?;
    row.push_all(floors)?;
    row.push_zeros(w.target_floors)?;
    row.push_all(rest)?;
    Ok(row)
}

/// A row of the target's floors.
fn target_floors_row(
    alloc: Global,
    width: usize,
    w: &Widths,
    entries: &[Coeff],
) -> Result<DenseRow, NoMemory>
    requires { w.now.target + w.now.target_floors ≤ length entries.now }
    ensures { IfOk result (λ row. row ≡ placed Topic.TargetFloors w.now entries.now) }
{
    let (iterators, rest) = entries.split_at(w.target);
    let (floors, rest) = rest.split_at(w.target_floors);
    let mut row = DenseRow::with_capacity(alloc, width)?;
    row.push_zeros(w.source)?;
    row.push_all(iterators)?;
    row.push_zeros(w.source_part)?;
    row.push_zeros(w.target_part)?;
    row.push_zeros(w.source_floors)?;
    row.push_all(floors)?;
    row.push_all(rest)?;
    Ok(row)
}

/// A row in the columns of a system, made with room for `width` entries; it has at least its iterators and locals.
fn placed_row(
    alloc: Global,
    width: usize,
    topic: Topic,
    w: &Widths,
    entries: &[Coeff],
) -> Result<DenseRow, NoMemory>
    requires { reach_of topic w.now ≤ length entries.now }
    ensures { IfOk result (λ row. row ≡ placed topic w.now entries.now) }
{
    match topic {
        Topic::Context => context_row(alloc, width, w, entries),
        Topic::SourcePart => source_part_row(alloc, width, w, entries),
        Topic::TargetPart => target_part_row(alloc, width, w, entries),
        Topic::SourceFloors => source_floors_row(alloc, width, w, entries),
        Topic::TargetFloors => target_floors_row(alloc, width, w, entries),
    }
}

/// Appends a row of one side, which has an entry for each iterator and local of which it speaks, for
/// each parameter and for the constant.
fn push_placed(part: &mut Part, topic: Topic, w: &Widths, row: &PartRow) -> Result<(), NoMemory>
    requires columns { part.old.shape ≡ shape_with w.now part.old.shape.parameters }
    requires long { length row.now.entries ≡ reach_of topic w.now + (part.old.shape.parameters + 1) }
    ensures shape { part.new.shape ≡ part.old.shape }
    ensures rows { OnOk result (part.new.rows ≡ part.old.rows ++ placed_rows topic w.now (row.now ∷ [])) }
{
    let width = part.width();
    let entries = placed_row(part.allocator(), width, topic, w, row.entries.as_slice())?;
    part.push_entries(row.kind, entries)
}

/// Appends rows of one side.
pub fn push_placed_rows(
    part: &mut Part,
    topic: Topic,
    w: &Widths,
    rows: &[PartRow],
) -> Result<(), NoMemory>
    requires columns { part.old.shape ≡ shape_with w.now part.old.shape.parameters }
    requires long { AreLong (reach_of topic w.now + (part.old.shape.parameters + 1)) rows.now }
    ensures shape { part.new.shape ≡ part.old.shape }
    ensures rows { OnOk result (part.new.rows ≡ part.old.rows ++ placed_rows topic w.now rows.now) }
{
    for k in 0..rows.len() {
        push_placed(part, topic, w, &rows[k])?;
    }
    Ok(())
}
