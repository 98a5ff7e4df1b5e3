//! Rows that compare values of the source with values of the target.

ghost use Rattle.std.specs.Prelude.{◌≡◌, ◌≤◌, ◌<◌, ◌^◌, ◌++◌, ◌∷◌, [], length, not, IfOk, OnOk, IfErr};
ghost use Rattle.row_core.specs.Rows.{scale};
ghost use Rattle.scop_core.specs.SolvedRows.{zeros};
ghost use Rattle.dependence_systems.specs.Comparisons.{factor_of, is_turned, kind_of, constant_for, constant_weight, floor_columns, entries_for, row_for, weight_for, weights_for, Compares, AllCompare};
ghost use Rattle.dependence_systems.specs.Systems.{rows_between, shape_with};

use crate::pieces::{push_constant_difference, push_differences, push_signed};
use crate::widths::{Comparison, Widths};
use relation_core::{Part, RowKind};
use row_core::{Coeff, DenseRow, RowFail};
use scop_core::Affine;
use std::alloc::Global;
use suite_base::NoMemory;

impl Comparison {
    /// Whether the source is taken from the target.
    fn turned(self) -> bool
        ensures { result ≡ is_turned self }
    {
        match self {
            Comparison::Subscripts => false,
            Comparison::EqualLevels => false,
            Comparison::LessLevels => true,
            Comparison::GreaterLevels => false,
        }
    }

    /// The kind of the row.
    fn kind(self) -> RowKind
        ensures { result ≡ kind_of self }
    {
        match self {
            Comparison::Subscripts => RowKind::Equal,
            Comparison::EqualLevels => RowKind::Equal,
            Comparison::LessLevels => RowKind::AtLeast,
            Comparison::GreaterLevels => RowKind::AtLeast,
        }
    }
}

/// Appends the columns of floors, of which there are so many.
fn push_floors(
    row: &mut DenseRow,
    comparison: Comparison,
    floors: usize,
    negative: bool,
    value: &Affine,
) -> Result<(), NoMemory>
    ensures { OnOk result (row.new ≡ row.old ++ floor_columns comparison floors (factor_of negative) value.now) }
{
    match comparison {
        Comparison::Subscripts => row.push_zeros(floors),
        Comparison::EqualLevels => push_signed(row, negative, value.floors()),
        Comparison::LessLevels => push_signed(row, negative, value.floors()),
        Comparison::GreaterLevels => push_signed(row, negative, value.floors()),
    }
}

/// The columns of iterators and locals of the row that compares two values, with room for `width` entries.
fn front_columns(
    alloc: Global,
    width: usize,
    comparison: Comparison,
    w: &Widths,
    a: &Affine,
    b: &Affine,
) -> Result<DenseRow, NoMemory>
    ensures { IfOk result (λ row. row ≡ scale (factor_of (is_turned comparison)) a.now.iterators ++ scale (factor_of (not (is_turned comparison))) b.now.iterators
        ++ zeros w.now.source_part ++ zeros w.now.target_part ++ floor_columns comparison w.now.source_floors (factor_of (is_turned comparison)) a.now
        ++ floor_columns comparison w.now.target_floors (factor_of (not (is_turned comparison))) b.now) }
{
    let turned = comparison.turned();
    let mut row = DenseRow::with_capacity(alloc, width)?;
    push_signed(&mut row, turned, a.iterators())?;
    push_signed(&mut row, !turned, b.iterators())?;
    row.push_zeros(w.source_part)?;
    row.push_zeros(w.target_part)?;
    push_floors(&mut row, comparison, w.source_floors, turned, a)?;
    push_floors(&mut row, comparison, w.target_floors, !turned, b)?;
    Ok(row)
}

/// Appends the constant of the row that compares two values with these constants. Overflow comes
/// exactly where the absolute values of its summands sum above 2^127 - 1.
fn push_constant(
    row: &mut DenseRow,
    comparison: Comparison,
    a: Coeff,
    b: Coeff,
) -> Result<(), RowFail>
    ensures row { OnOk result (row.new ≡ row.old ++ constant_for comparison a b ∷ []) }
    ensures light { OnOk result (constant_weight comparison a b < 2 ^ 127) }
    ensures heavy { IfErr result (λ fail. fail ≡ RowFail.Overflow → 2 ^ 127 ≤ constant_weight comparison a b) }
{
    match comparison {
        Comparison::Subscripts => push_constant_difference(row, false, a, b),
        Comparison::EqualLevels => push_constant_difference(row, false, a, b),
        Comparison::LessLevels => push_constant_difference(row, true, a, b),
        Comparison::GreaterLevels => push_constant_difference(row, true, b, a),
    }
}

/// The row that compares two values. Overflow comes exactly where some entry has summands whose
/// absolute values sum above 2^127 - 1.
fn comparing_row(
    alloc: Global,
    width: usize,
    comparison: Comparison,
    w: &Widths,
    a: &Affine,
    b: &Affine,
) -> Result<DenseRow, RowFail>
    requires { length a.now.parameters ≡ length b.now.parameters }
    ensures row { IfOk result (λ row. row ≡ entries_for comparison w.now a.now b.now) }
    ensures light { OnOk result (weight_for comparison a.now b.now < 2 ^ 127) }
    ensures heavy { IfErr result (λ fail. fail ≡ RowFail.Overflow → 2 ^ 127 ≤ weight_for comparison a.now b.now) }
{
    let turned = comparison.turned();
    match front_columns(alloc, width, comparison, w, a, b) {
        Err(NoMemory) => Err(RowFail::Memory),
        Ok(row) => {
            let mut row = row;
            push_differences(&mut row, turned, a.parameters(), b.parameters())?;
            push_constant(&mut row, comparison, a.constant(), b.constant())?;
            Ok(row)
        }
    }
}

/// Appends the row that compares two values. Overflow comes exactly where some entry of it has
/// summands whose absolute values sum above 2^127 - 1.
fn push_comparison(
    part: &mut Part,
    comparison: Comparison,
    w: &Widths,
    a: &Affine,
    b: &Affine,
) -> Result<(), RowFail>
    requires columns { part.old.shape ≡ shape_with w.now part.old.shape.parameters }
    requires sizes { Compares comparison w.now part.old.shape.parameters a.now b.now }
    ensures shape { part.new.shape ≡ part.old.shape }
    ensures rows { OnOk result (part.new.rows ≡ part.old.rows ++ row_for comparison w.now a.now b.now ∷ []) }
    ensures light { OnOk result (weight_for comparison a.now b.now < 2 ^ 127) }
    ensures heavy { IfErr result (λ fail. fail ≡ RowFail.Overflow → 2 ^ 127 ≤ weight_for comparison a.now b.now) }
{
    let width = part.width();
    let row = comparing_row(part.allocator(), width, comparison, w, a, b)?;
    match part.push_entries(comparison.kind(), row) {
        Ok(()) => Ok(()),
        Err(NoMemory) => Err(RowFail::Memory),
    }
}

/// Appends one row for each two values at one place of two lists of one length. Overflow comes exactly
/// where an entry of one of them has summands whose absolute values sum above 2^127 - 1.
pub fn push_comparisons(
    part: &mut Part,
    comparison: Comparison,
    w: &Widths,
    a: &[Affine],
    b: &[Affine],
) -> Result<(), RowFail>
    requires columns { part.old.shape ≡ shape_with w.now part.old.shape.parameters }
    requires lengths { length a.now ≡ length b.now }
    requires sizes { AllCompare comparison w.now part.old.shape.parameters a.now b.now }
    ensures shape { part.new.shape ≡ part.old.shape }
    ensures rows { OnOk result (part.new.rows ≡ part.old.rows ++ rows_between (row_for comparison w.now) a.now b.now) }
    ensures light { OnOk result (weights_for comparison a.now b.now < 2 ^ 127) }
    ensures heavy { IfErr result (λ fail. fail ≡ RowFail.Overflow → 2 ^ 127 ≤ weights_for comparison a.now b.now) }
{
    for k in 0..a.len() {
        push_comparison(part, comparison, w, &a[k], &b[k])?;
    }
    Ok(())
}
