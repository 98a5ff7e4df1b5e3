//! The layers of loops.

ghost use Rattle.std.specs.Prelude.{◌≡◌, ◌+◌, ◌∷◌, [], false, Some, IfOk};
ghost use Rattle.clan_rows.specs.Pieces.{bounds_part, checked_stride, loop_of, with_stride_part};
ghost use Rattle.clan_extract.specs.Counts.{one_part};
ghost use Rattle.clan_rows.specs.Bounds as spec;
ghost use Rattle.clan_rows.specs.Contents.{affine_of, bounds_of, made, made_part, made_row, said};
ghost use Rattle.clan_rows.specs.Layers.{layer};

use crate::bounds::{Bounds, Side, side_form};
use crate::coefficients::size_of;
use crate::constraints::{Constraint, FormRow, part_of_one};
use crate::counts::Count;
use crate::forms::Form;
use crate::layers::Layer;
use relation_core::RowKind;
use row_core::Coeff;
use std::alloc::Global;
use suite_base::{List, NoMemory};

/// A step of at least 2: the side on which the start bounds the loop, the start, and the step or its
/// negative.
#[derive(Drop)]
pub struct Stride {
    pub side: Side,
    pub start: Option<Form>,
    pub step: Option<Coeff>,
}

// The row that asks for multiples of the step from the start.
#[tactic(auto, using(crate::proofs::Pieces::stride_row_none, crate::proofs::Pieces::stride_row_some))]
fn stride_row(
    alloc: Global,
    side: Side,
    start: &Form,
    step: Coeff,
) -> Result<Option<FormRow>, NoMemory>
    ensures { IfOk result (λ row. made_row row ≡ checked_stride (spec.stride_row side (affine_of start.now) step)) }
{
    let size = size_of(step);
    let _in_range = size.value();
    let form = side_form(alloc, side, Coeff::ONE, start, 0)?;
    match form {
        None => Ok(None),
        Some(form) => Ok(Some(FormRow {
            kind: RowKind::Equal,
            form,
            local: size.negated(),
        })),
    }
}

// The part of the bounds alone.
fn unit_part(alloc: Global, bounds: Bounds) -> Result<Option<List<Constraint>>, NoMemory>
    ensures { IfOk result (λ part. made_part part ≡ bounds_part (bounds_of bounds)) }
{
    if bounds.fits {
        let constraint = Constraint::of_rows(alloc, bounds.rows, false)?;
        Ok(Some(part_of_one(alloc, constraint)?))
    } else {
        Ok(None)
    }
}

// The part of two constraints.
fn part_of_two(
    alloc: Global,
    first: Constraint,
    second: Constraint,
) -> Result<List<Constraint>, NoMemory>
    ensures { IfOk result (λ part. part ≡ first ∷ (second ∷ [])) }
{
    let mut part = List::new(alloc);
    part.push(first)?;
    part.push(second)?;
    Ok(part)
}

// The part of the bounds and of the row of a stride.
fn stride_part(
    alloc: Global,
    bounds: Bounds,
    row: Option<FormRow>,
) -> Result<Option<List<Constraint>>, NoMemory>
    ensures { IfOk result (λ part. made_part part ≡ with_stride_part (bounds_of bounds) (made_row row)) }
{
    match row {
        None => Ok(None),
        Some(row) => {
            if bounds.fits {
                let first = Constraint::of_rows(alloc, bounds.rows, false)?;
                let second = Constraint::of_row(alloc, row, true)?;
                Ok(Some(part_of_two(alloc, first, second)?))
            } else {
                Ok(None)
            }
        }
    }
}

// The part of the bounds and of the row of this stride.
fn strided_part(
    alloc: Global,
    bounds: Bounds,
    side: Side,
    start: &Form,
    step: Coeff,
) -> Result<Option<List<Constraint>>, NoMemory>
    ensures { IfOk result (λ part. made_part part ≡ with_stride_part (bounds_of bounds) (checked_stride (spec.stride_row side (affine_of start.now) step))) }
{
    let row = stride_row(alloc, side, start, step)?;
    stride_part(alloc, bounds, row)
}

// The layer of a loop with a step of at least 2.
#[tactic(auto, using(crate::proofs::Pieces::stride_some_is))]
fn strided(
    alloc: Global,
    bounds: Bounds,
    side: Side,
    start: &Form,
    step: Coeff,
) -> Result<Layer, NoMemory>
    ensures { IfOk result (λ layer. said layer ≡ spec.stride_layer (bounds_of bounds) side (Some (affine_of start.now)) (Some step)) }
{
    let _in_range = step.value();
    let count = Count::with_stride(bounds.count);
    let part = strided_part(alloc, bounds, side, start, step)?;
    Layer::of_part(alloc, count, part)
}

// The layer of such a loop whose start or step does not fit.
#[tactic(auto, using(crate::proofs::Pieces::unfit_is))]
fn unfit_stride(alloc: Global, rows: usize) -> Result<Layer, NoMemory>
    ensures { IfOk result (λ made. said made ≡ layer (one_part (rows + 1) 1) false []) }
{
    Layer::of_part(alloc, Count::with_stride(rows), None)
}

// The layer of a loop with such a stride, which may not fit.
fn with_stride(
    alloc: Global,
    bounds: Bounds,
    side: Side,
    start: Option<Form>,
    step: Option<Coeff>,
) -> Result<Layer, NoMemory>
    ensures { IfOk result (λ made_layer. said made_layer ≡ spec.stride_layer (bounds_of bounds) side (made start) step) }
{
    match start {
        None => unfit_stride(alloc, bounds.count),
        Some(start) => match step {
            None => unfit_stride(alloc, bounds.count),
            Some(step) => strided(alloc, bounds, side, &start, step),
        },
    }
}

impl Layer {
    /// The layer of a loop with these bounds, those of its start first; with a step of at least 2 it has
    /// a row more, which has a local.
    #[tactic(auto, using(crate::proofs::Pieces::unit_is))]
    pub fn of_loop(alloc: Global, bounds: Bounds, stride: Option<Stride>) -> Result<Layer, NoMemory>
        ensures { IfOk result (λ layer. said layer ≡ loop_of (bounds_of bounds) stride) }
    {
        match stride {
            None => {
                let count = Count::one_part(bounds.count, 0);
                let part = unit_part(alloc, bounds)?;
                Layer::of_part(alloc, count, part)
            }
            Some(stride) => with_stride(alloc, bounds, stride.side, stride.start, stride.step),
        }
    }
}
