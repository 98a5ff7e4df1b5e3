//! The layers of loops.

ghost use Rattle.std.specs.Prelude.{◌≡◌, false, IfOk, Some};
ghost use Rattle.clan_rows.specs.Bounds as bounds;
ghost use Rattle.clan_rows.specs.Contents.{said};
ghost use Rattle.clan_rows.specs.Fitting.{in_range};
ghost use Rattle.region_forms.specs.Bounds as spec;
ghost use Rattle.region_trees.specs.Statements.{step_of};
ghost use Rattle.region_trees.specs.Terms.{order_of};

use crate::bounds::{Reach, with_sum};
use crate::numbers::integer;
use crate::scopes::Scope;
use crate::sums::sum_value;
use c_lexer::piece_bytes;
use c_parser::{Loop, Rel, Step, Sum};
use clan_rows::{Bounds, Layer, Side, Stride};
use row_core::Coeff;
use std::alloc::Global;
use suite_base::NoMemory;

/// The layer of a loop.
pub fn loop_layer(alloc: Global, scope: &Scope<'_>, head: &Loop) -> Result<Layer, NoMemory>
    ensures { IfOk result (λ l. spec.IsLoopAt scope.now head.now (said l)) }
{
    let side = start_side(head.rel);
    let start = Reach {
        side,
        strict: false,
    };
    let bound = Reach {
        side: bound_side(head.rel),
        strict: is_strict(head.rel),
    };
    let bounds = with_sum(alloc, scope, Bounds::new(alloc), start, &head.start)?;
    let bounds = with_sum(alloc, scope, bounds, bound, &head.bound)?;
    let step = step_size(scope.source, head.step);
    let stride = stride_of(alloc, scope, side, &head.start, step)?;
    Layer::of_loop(alloc, bounds, stride)
}

// The stride of a loop with this start and step, which has one where its step is not 1 or -1.
fn stride_of(
    alloc: Global,
    scope: &Scope<'_>,
    side: Side,
    start: &Sum,
    step: Option<Coeff>,
) -> Result<Option<Stride>, NoMemory>
    ensures { IfOk result (λ s. spec.IsStrideAt scope.now side start.now step s) }
{
    match step {
        None => strided(alloc, scope, side, start, None),
        Some(step) => {
            if is_one(step) {
                return Ok(None);
            }
            strided(alloc, scope, side, start, Some(step))
        }
    }
}

// The stride of a loop whose step is not 1 or -1.
fn strided(
    alloc: Global,
    scope: &Scope<'_>,
    side: Side,
    start: &Sum,
    step: Option<Coeff>,
) -> Result<Option<Stride>, NoMemory>
    ensures { IfOk result (λ s. spec.is_unit step ≡ false → spec.IsStrideAt scope.now side start.now step s) }
{
    let start = sum_value(alloc, scope, start)?;
    Ok(Some(Stride {
        side,
        start: start.form,
        step,
    }))
}

// Whether a step is 1 or -1.
fn is_one(step: Coeff) -> bool
    ensures { result ≡ spec.is_unit (Some step) }
{
    step.value().unsigned_abs() == 1
}

// The step, negative for a downward loop; `None` where it is out of range.
fn step_size(source: &[u8], step: Step) -> Option<Coeff>
    ensures { result ≡ in_range (step_of source.now step) }
{
    match step {
        Step::PostUp | Step::PreUp => Some(Coeff::ONE),
        Step::PostDown | Step::PreDown => Some(Coeff::ONE.negated()),
        Step::AddUp(piece) => integer(piece_bytes(source, piece)),
        Step::SubDown(piece) => opposite(integer(piece_bytes(source, piece))),
    }
}

// The negative of an integer that may be out of range.
fn opposite(size: Option<Coeff>) -> Option<Coeff>
    ensures { result ≡ spec.opposite size }
{
    match size {
        Some(size) => Some(size.negated()),
        None => None,
    }
}

// The side on which a loop's start bounds it.
fn start_side(rel: Rel) -> Side
    ensures { result ≡ bounds.start_side (order_of rel) }
{
    match rel {
        Rel::Less | Rel::LessEqual => Side::Lower,
        Rel::Greater | Rel::GreaterEqual => Side::Upper,
    }
}

// The side on which a loop's bound bounds it.
fn bound_side(rel: Rel) -> Side
    ensures { result ≡ bounds.bound_side (order_of rel) }
{
    match rel {
        Rel::Less | Rel::LessEqual => Side::Upper,
        Rel::Greater | Rel::GreaterEqual => Side::Lower,
    }
}

// Whether a loop's iterator never reaches the bound.
fn is_strict(rel: Rel) -> bool
    ensures { result ≡ bounds.is_strict (order_of rel) }
{
    match rel {
        Rel::Less | Rel::Greater => true,
        Rel::LessEqual | Rel::GreaterEqual => false,
    }
}
