//! The rows of a level, behind the rows that the levels of two accesses share.

ghost use Rattle.std.specs.Prelude.{◌≡◌, ◌≤◌, ◌<◌, ◌^◌, ◌++◌, length, OnOk, IfErr};
ghost use Rattle.scop_core.specs.LevelOrder.{common_loops, IsLevel};
ghost use Rattle.dependence_systems.specs.Fits.{SchedulesFit, LevelsFit};
ghost use Rattle.dependence_systems.specs.Systems.{shape_with, equal_rows, equal_weight, less_rows, less_weight, greater_rows, greater_weight, level_rows, level_weight};

use crate::comparing::push_comparisons;
use crate::level_tests::count_common;
use crate::widths::{Comparison, Widths};
use relation_core::Part;
use row_core::RowFail;
use scop_core::{Affine, Schedule};

/// Appends the rows that say that the first `count` levels are equal. Overflow comes exactly where an
/// entry of one of them has summands whose absolute values sum above 2^127 - 1.
pub fn push_equal_levels(
    part: &mut Part,
    w: &Widths,
    source: &[Affine],
    target: &[Affine],
    count: usize,
) -> Result<(), RowFail>
    requires columns { part.old.shape ≡ shape_with w.now part.old.shape.parameters }
    requires levels { LevelsFit w.now part.old.shape.parameters source.now target.now }
    requires source_count { count ≤ length source.now }
    requires target_count { count ≤ length target.now }
    ensures shape { part.new.shape ≡ part.old.shape }
    ensures rows { OnOk result (part.new.rows ≡ part.old.rows ++ equal_rows w.now source.now target.now count) }
    ensures light { OnOk result (equal_weight source.now target.now count < 2 ^ 127) }
    ensures heavy { IfErr result (λ fail. fail ≡ RowFail.Overflow → 2 ^ 127 ≤ equal_weight source.now target.now count) }
{
    push_comparisons(
        part,
        Comparison::EqualLevels,
        w,
        &source[..count],
        &target[..count],
    )
}

/// Appends the row that says that level `k`, from 0, is less in the source. Overflow comes exactly
/// where an entry of it has summands whose absolute values sum above 2^127 - 1.
pub fn push_less_level(
    part: &mut Part,
    w: &Widths,
    source: &[Affine],
    target: &[Affine],
    k: usize,
) -> Result<(), RowFail>
    requires columns { part.old.shape ≡ shape_with w.now part.old.shape.parameters }
    requires levels { LevelsFit w.now part.old.shape.parameters source.now target.now }
    requires source_count { k < length source.now }
    requires target_count { k < length target.now }
    ensures shape { part.new.shape ≡ part.old.shape }
    ensures rows { OnOk result (part.new.rows ≡ part.old.rows ++ less_rows w.now source.now target.now k) }
    ensures light { OnOk result (less_weight source.now target.now k < 2 ^ 127) }
    ensures heavy { IfErr result (λ fail. fail ≡ RowFail.Overflow → 2 ^ 127 ≤ less_weight source.now target.now k) }
{
    let (_, source) = source.split_at(k);
    let (_, target) = target.split_at(k);
    push_comparisons(part, Comparison::LessLevels, w, &source[..1], &target[..1])
}

/// Appends the row that says that level `k`, from 0, is greater in the source. Overflow comes exactly
/// where an entry of it has summands whose absolute values sum above 2^127 - 1.
pub fn push_greater_level(
    part: &mut Part,
    w: &Widths,
    source: &[Affine],
    target: &[Affine],
    k: usize,
) -> Result<(), RowFail>
    requires columns { part.old.shape ≡ shape_with w.now part.old.shape.parameters }
    requires levels { LevelsFit w.now part.old.shape.parameters source.now target.now }
    requires source_count { k < length source.now }
    requires target_count { k < length target.now }
    ensures shape { part.new.shape ≡ part.old.shape }
    ensures rows { OnOk result (part.new.rows ≡ part.old.rows ++ greater_rows w.now source.now target.now k) }
    ensures light { OnOk result (greater_weight source.now target.now k < 2 ^ 127) }
    ensures heavy { IfErr result (λ fail. fail ≡ RowFail.Overflow → 2 ^ 127 ≤ greater_weight source.now target.now k) }
{
    let (_, source) = source.split_at(k);
    let (_, target) = target.split_at(k);
    push_comparisons(
        part,
        Comparison::GreaterLevels,
        w,
        &source[..1],
        &target[..1],
    )
}

/// Appends the rows of level `level`. Overflow comes exactly where an entry of one of them has
/// summands whose absolute values sum above 2^127 - 1.
pub fn push_level(
    part: &mut Part,
    w: &Widths,
    source: &Schedule,
    target: &Schedule,
    level: usize,
) -> Result<(), RowFail>
    requires columns { part.old.shape ≡ shape_with w.now part.old.shape.parameters }
    requires fits { SchedulesFit w.now part.old.shape.parameters source.now target.now }
    requires level { IsLevel source.now.betas target.now.betas level }
    ensures shape { part.new.shape ≡ part.old.shape }
    ensures rows { OnOk result (part.new.rows ≡ part.old.rows ++ level_rows w.now source.now target.now level) }
    ensures light { OnOk result (level_weight source.now target.now level < 2 ^ 127) }
    ensures heavy { IfErr result (λ fail. fail ≡ RowFail.Overflow → 2 ^ 127 ≤ level_weight source.now target.now level) }
{
    let sources = source.levels.as_slice();
    let targets = target.levels.as_slice();
    if level == 0 {
        let common = count_common(source.betas.as_slice(), target.betas.as_slice());
        push_equal_levels(part, w, sources, targets, common)
    } else {
        push_equal_levels(part, w, sources, targets, level - 1)?;
        push_less_level(part, w, sources, targets, level - 1)
    }
}
