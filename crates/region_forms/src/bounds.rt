//! The rows of a loop's start and bound.

ghost use Rattle.std.specs.Prelude.{◌≡◌, IfOk};
ghost use Rattle.clan_extract.specs.Regions.{Ceiling, Floor};
ghost use Rattle.region_forms.specs.Bounds as spec;
ghost use Rattle.region_trees.specs.Layers.{term_of_sum};
ghost use Rattle.region_trees.specs.Terms.{value_of};

use crate::scopes::Scope;
use crate::sums::{sum_value, value_value};
use c_lexer::piece_bytes;
use c_parser::{Piece, Primary, Sum, Value};
use clan_rows::{Bounds, Side};
use std::alloc::Global;
use suite_base::NoMemory;

/// How an expression bounds an iterator: on which side, and whether the iterator may not be equal to it.
#[derive(Clone, Copy, Debug, PartialEq, Eq)]
pub struct Reach {
    pub side: Side,
    pub strict: bool,
}

/// An operator that stands in bounds alone.
#[derive(Clone, Copy, Debug, PartialEq, Eq)]
pub enum Operator {
    /// `max` or `min`: both arguments bound.
    Both,
    /// `ceild`: a quotient rounded up.
    Ceiling,
    /// `floord`: a quotient rounded down.
    Floor,
}

/// The bounds with the rows of one expression more: of a value, or of a call of `max`, `min`, `ceild` or
/// `floord`.
#[cycle(bounds)]
pub fn with_sum(
    alloc: Global,
    scope: &Scope<'_>,
    bounds: Bounds,
    reach: Reach,
    sum: &Sum,
) -> Result<Bounds, NoMemory>
    ensures { IfOk result (λ made. spec.IsBoundAt scope.now reach (term_of_sum scope.now.source.now sum.now) bounds made) }
{
    if !sum.rest.is_empty() {
        return with_value(alloc, scope, bounds, reach, sum);
    }
    if !sum.first.rest.is_empty() {
        return with_value(alloc, scope, bounds, reach, sum);
    }
    if !sum.first.first.signs.as_slice().is_empty() {
        return with_value(alloc, scope, bounds, reach, sum);
    }
    match &sum.first.first.primary {
        Primary::Call(name, arguments) => {
            with_call(alloc, scope, bounds, reach, *name, arguments.as_slice())
        }
        Primary::Integer(_) | Primary::Literal(_) | Primary::Target(_) | Primary::Bracket(_) =>
            with_value(alloc, scope, bounds, reach, sum),
    }
}

// The bounds with the row of a value.
fn with_value(
    alloc: Global,
    scope: &Scope<'_>,
    bounds: Bounds,
    reach: Reach,
    sum: &Sum,
) -> Result<Bounds, NoMemory>
    ensures { IfOk result (λ made. spec.IsValueBoundAt scope.now reach (term_of_sum scope.now.source.now sum.now) bounds made) }
{
    let value = sum_value(alloc, scope, sum)?;
    bounds.with_value(alloc, reach.side, reach.strict, &value.form)
}

// The bounds with the rows of a call.
#[cycle(bounds)]
fn with_call(
    alloc: Global,
    scope: &Scope<'_>,
    bounds: Bounds,
    reach: Reach,
    name: Piece,
    arguments: &[Value],
) -> Result<Bounds, NoMemory>
    ensures { IfOk result (λ made. spec.IsCallBoundAt scope.now reach name arguments.now bounds made) }
{
    if arguments.len() != 2 {
        return Ok(bounds);
    }
    let left = &arguments[0];
    let right = &arguments[1];
    match operator_of(piece_bytes(scope.source, name)) {
        None => Ok(bounds),
        Some(Operator::Both) => {
            let first = with_argument(alloc, scope, bounds, reach, left)?;
            with_argument(alloc, scope, first, reach, right)
        }
        Some(Operator::Ceiling) => with_ceiling(alloc, scope, bounds, reach, left, right),
        Some(Operator::Floor) => with_floor(alloc, scope, bounds, reach, left, right),
    }
}

// The bounds with the rows of an argument that is a bound itself.
#[cycle(bounds)]
fn with_argument(
    alloc: Global,
    scope: &Scope<'_>,
    bounds: Bounds,
    reach: Reach,
    value: &Value,
) -> Result<Bounds, NoMemory>
    ensures { IfOk result (λ made. spec.IsBoundAt scope.now reach (value_of scope.now.source.now value.now).term bounds made) }
{
    if value.arms.is_some() {
        return Ok(bounds);
    }
    let ands = value.test.items.as_slice();
    if ands.len() != 1 {
        return Ok(bounds);
    }
    let equals = ands[0].items.as_slice();
    if equals.len() != 1 {
        return Ok(bounds);
    }
    let equal = &equals[0];
    if !equal.rest.is_empty() {
        return Ok(bounds);
    }
    if !equal.first.rest.is_empty() {
        return Ok(bounds);
    }
    with_sum(alloc, scope, bounds, reach, &equal.first.first)
}

// The bounds with the row of a quotient rounded up.
fn with_ceiling(
    alloc: Global,
    scope: &Scope<'_>,
    bounds: Bounds,
    reach: Reach,
    dividend: &Value,
    divisor: &Value,
) -> Result<Bounds, NoMemory>
    ensures { IfOk result (λ made. spec.IsQuotientBoundAt scope.now reach Ceiling dividend.now divisor.now bounds made) }
{
    let dividend = value_value(alloc, scope, dividend)?;
    let divisor = value_value(alloc, scope, divisor)?;
    bounds.with_ceiling(
        alloc,
        reach.side,
        reach.strict,
        &dividend.form,
        divisor.integer,
    )
}

// The bounds with the row of a quotient rounded down.
fn with_floor(
    alloc: Global,
    scope: &Scope<'_>,
    bounds: Bounds,
    reach: Reach,
    dividend: &Value,
    divisor: &Value,
) -> Result<Bounds, NoMemory>
    ensures { IfOk result (λ made. spec.IsQuotientBoundAt scope.now reach Floor dividend.now divisor.now bounds made) }
{
    let dividend = value_value(alloc, scope, dividend)?;
    let divisor = value_value(alloc, scope, divisor)?;
    bounds.with_floor(
        alloc,
        reach.side,
        reach.strict,
        &dividend.form,
        divisor.integer,
    )
}

// The operator of this name.
fn operator_of(name: &[u8]) -> Option<Operator>
    ensures { result ≡ spec.operator_named name.now }
{
    if name == b"max".as_slice() {
        return Some(Operator::Both);
    }
    if name == b"min".as_slice() {
        return Some(Operator::Both);
    }
    if name == b"ceild".as_slice() {
        return Some(Operator::Ceiling);
    }
    if name == b"floord".as_slice() {
        return Some(Operator::Floor);
    }
    None
}
