//! The system of two accesses at one level, from its two sides.

ghost use Rattle.std.specs.Prelude.{pos, negsuc, ◌≡◌, ◌≤◌, ◌<◌, ◌^◌, ◌++◌, [], length, OnOk, IfOk, IfErr};
ghost use Rattle.relation_core.specs.Systems.{HasLimits};
ghost use Rattle.scop_core.specs.LevelOrder.{IsLevel};
ghost use Rattle.scop_core.specs.SolvedRows.{floor_part};
ghost use Rattle.dependence_systems.specs.Fits.{GroundsFit, SubscriptsFit, PairingFits};
ghost use Rattle.dependence_systems.specs.Comparisons.{HasColumns, SharedFit};
ghost use Rattle.dependence_systems.specs.Systems.{widths_for, shape_with, placed_rows, shared_rows, pairing, rows_between, subscript_row, weight_between, base_of, base_weight, level_system, system_shape, system_weight};

use crate::comparing::push_comparisons;
use crate::level_rows::push_level;
use crate::placing::push_placed_rows;
use crate::widths::{Comparison, Topic, Widths};
use relation_core::{Part, Shape};
use row_core::RowFail;
use scop_core::{Access, Schedule};
use std::alloc::Global;
use suite_base::NoMemory;

/// The numbers of columns for two domain parts and two schedules.
pub fn widths_between(
    source_part: &Part,
    target_part: &Part,
    source: &Schedule,
    target: &Schedule,
) -> Widths
    ensures { result ≡ widths_for source_part.now target_part.now source.now target.now }
{
    let source_shape = source_part.shape();
    let target_shape = target_part.shape();
    Widths {
        source: source_shape.outputs,
        target: target_shape.outputs,
        source_part: source_shape.locals,
        target_part: target_shape.locals,
        source_floors: source.floors.len(),
        target_floors: target.floors.len(),
    }
}

/// Appends the rows of a part of one side.
fn push_side(part: &mut Part, topic: Topic, w: &Widths, side: &Part) -> Result<(), NoMemory>
    requires columns { part.old.shape ≡ shape_with w.now part.old.shape.parameters }
    requires side { HasColumns topic w.now part.old.shape.parameters side.now.shape }
    ensures shape { part.new.shape ≡ part.old.shape }
    ensures rows { OnOk result (part.new.rows ≡ part.old.rows ++ placed_rows topic w.now side.now.rows) }
{
    let _count = side.row_count();
    push_placed_rows(part, topic, w, side.rows())
}

/// The rows that do not speak of accesses: those of the context, of the two domain parts and of the
/// floors of both sides, which are given as parts of their own. They stay the same for all accesses of
/// two statements.
pub fn shared_part(
    alloc: Global,
    w: &Widths,
    context: &Part,
    source_part: &Part,
    target_part: &Part,
    source_floors: &Part,
    target_floors: &Part,
) -> Result<Part, NoMemory>
    requires limits { HasLimits (shape_with w.now context.now.shape.parameters) }
    requires columns { SharedFit w.now context.now source_part.now target_part.now source_floors.now target_floors.now }
    ensures shape { IfOk result (λ part. part.shape ≡ shape_with w.now context.now.shape.parameters) }
    ensures rows { IfOk result (λ part. part.rows ≡ shared_rows w.now context.now.rows source_part.now.rows target_part.now.rows source_floors.now.rows target_floors.now.rows) }
{
    let shape = Shape {
        outputs: w.source,
        inputs: w.target,
        locals: w.source_part + w.target_part + w.source_floors + w.target_floors,
        parameters: context.shape().parameters,
    };
    let grounds = context
        .row_count()
        .saturating_add(source_part.row_count())
        .saturating_add(target_part.row_count())
        .saturating_add(source_floors.row_count())
        .saturating_add(target_floors.row_count());
    // room for a subscript or a level for each iterator
    let room = grounds.saturating_add(w.source).saturating_add(w.target);
    let mut part = Part::with_capacity(alloc, shape, room)?;
    push_side(&mut part, Topic::Context, w, context)?;
    push_side(&mut part, Topic::SourcePart, w, source_part)?;
    push_side(&mut part, Topic::TargetPart, w, target_part)?;
    push_side(&mut part, Topic::SourceFloors, w, source_floors)?;
    push_side(&mut part, Topic::TargetFloors, w, target_floors)?;
    Ok(part)
}

/// The same with the floors of two schedules.
pub fn shared_of(
    alloc: Global,
    context: &Part,
    source_part: &Part,
    target_part: &Part,
    source: &Schedule,
    target: &Schedule,
) -> Result<Part, NoMemory>
    requires limits { HasLimits (shape_with (widths_for source_part.now target_part.now source.now target.now) context.now.shape.parameters) }
    requires grounds { GroundsFit context.now source_part.now target_part.now source.now target.now }
    ensures shape { IfOk result (λ part. part.shape ≡ shape_with (widths_for source_part.now target_part.now source.now target.now) context.now.shape.parameters) }
    ensures rows { IfOk result (λ part. part.rows ≡ shared_rows (widths_for source_part.now target_part.now source.now target.now) context.now.rows source_part.now.rows target_part.now.rows
        (floor_part source_part.now.shape.outputs context.now.shape.parameters source.now.floors).rows
        (floor_part target_part.now.shape.outputs context.now.shape.parameters target.now.floors).rows) }
{
    let w = widths_between(source_part, target_part, source, target);
    let parameters = context.shape().parameters;
    let source_floors = source.floor_part(alloc, w.source, parameters)?;
    let target_floors = target.floor_part(alloc, w.target, parameters)?;
    shared_part(
        alloc,
        &w,
        context,
        source_part,
        target_part,
        &source_floors,
        &target_floors,
    )
}

/// Appends the rows of the subscripts of two accesses. Overflow comes exactly where an entry of them has summands
/// whose absolute values sum above 2^127 - 1.
pub fn push_subscripts(
    part: &mut Part,
    w: &Widths,
    source: &Access,
    target: &Access,
) -> Result<(), RowFail>
    requires columns { part.old.shape ≡ shape_with w.now part.old.shape.parameters }
    requires lengths { length source.now.subscripts ≡ length target.now.subscripts }
    requires source { SubscriptsFit w.now.source part.old.shape.parameters source.now.subscripts }
    requires target { SubscriptsFit w.now.target part.old.shape.parameters target.now.subscripts }
    ensures shape { part.new.shape ≡ part.old.shape }
    ensures rows { OnOk result (part.new.rows ≡ part.old.rows ++ rows_between (subscript_row w.now) source.now.subscripts target.now.subscripts) }
    ensures light { OnOk result (weight_between (pos 1) (negsuc 0) (pos 0) source.now.subscripts target.now.subscripts < 2 ^ 127) }
    ensures heavy { IfErr result (λ fail. fail ≡ RowFail.Overflow → 2 ^ 127 ≤ weight_between (pos 1) (negsuc 0) (pos 0) source.now.subscripts target.now.subscripts) }
{
    let subscripts = source.subscripts.as_slice();
    let others = target.subscripts.as_slice();
    push_comparisons(part, Comparison::Subscripts, w, subscripts, others)
}

/// The rows that the systems of two accesses share at all levels: those of the two sides, in parts of the
/// domains of their statements and under two schedules, and those of the subscripts. Overflow comes
/// exactly where an entry of them has summands whose absolute values sum above 2^127 - 1.
pub fn base_between(
    alloc: Global,
    context: &Part,
    source_part: &Part,
    target_part: &Part,
    source_access: &Access,
    target_access: &Access,
    source: &Schedule,
    target: &Schedule,
) -> Result<Part, RowFail>
    requires limits { HasLimits (system_shape (pairing context.now source_part.now target_part.now source_access.now target_access.now source.now target.now)) }
    requires fits { PairingFits (pairing context.now source_part.now target_part.now source_access.now target_access.now source.now target.now) }
    ensures part { IfOk result (λ part. part ≡ base_of (pairing context.now source_part.now target_part.now source_access.now target_access.now source.now target.now)) }
    ensures light { OnOk result (base_weight (pairing context.now source_part.now target_part.now source_access.now target_access.now source.now target.now) < 2 ^ 127) }
    ensures heavy { IfErr result (λ fail. fail ≡ RowFail.Overflow → 2 ^ 127 ≤ base_weight (pairing context.now source_part.now target_part.now source_access.now target_access.now source.now target.now)) }
{
    let w = widths_between(source_part, target_part, source, target);
    match shared_of(alloc, context, source_part, target_part, source, target) {
        Err(NoMemory) => Err(RowFail::Memory),
        Ok(part) => {
            let mut part = part;
            push_subscripts(&mut part, &w, source_access, target_access)?;
            Ok(part)
        }
    }
}

/// The system of two accesses, in parts of the domains of their statements and under two schedules,
/// at one of the levels between these. Overflow comes exactly where an entry of its rows has summands
/// whose absolute values sum above 2^127 - 1.
pub fn system_between(
    alloc: Global,
    context: &Part,
    source_part: &Part,
    target_part: &Part,
    source_access: &Access,
    target_access: &Access,
    source: &Schedule,
    target: &Schedule,
    level: usize,
) -> Result<Part, RowFail>
    requires limits { HasLimits (system_shape (pairing context.now source_part.now target_part.now source_access.now target_access.now source.now target.now)) }
    requires fits { PairingFits (pairing context.now source_part.now target_part.now source_access.now target_access.now source.now target.now) }
    requires level { IsLevel source.now.betas target.now.betas level }
    ensures part { IfOk result (λ part. part ≡ level_system (pairing context.now source_part.now target_part.now source_access.now target_access.now source.now target.now) level) }
    ensures light { OnOk result (system_weight (pairing context.now source_part.now target_part.now source_access.now target_access.now source.now target.now) level < 2 ^ 127) }
    ensures heavy { IfErr result (λ fail. fail ≡ RowFail.Overflow → 2 ^ 127 ≤ system_weight (pairing context.now source_part.now target_part.now source_access.now target_access.now source.now target.now) level) }
{
    let w = widths_between(source_part, target_part, source, target);
    let mut part = base_between(
        alloc,
        context,
        source_part,
        target_part,
        source_access,
        target_access,
        source,
        target,
    )?;
    push_level(&mut part, &w, source, target, level)?;
    Ok(part)
}
