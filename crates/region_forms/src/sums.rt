//! The forms of sums, products and their operands.

ghost use Rattle.std.specs.Prelude.{◌≡◌, IfOk};
ghost use Rattle.region_forms.specs.Evaluations as spec;
ghost use Rattle.region_trees.specs.Layers.{joined_by, term_of_sum};
ghost use Rattle.region_trees.specs.Terms.{and_of, compare_of, equal_of, of_product, of_sum, or_of, primary_of, product_of, unary_of, value_of};

use crate::evaluations::{Evaluation, multiple, named, number};
use crate::multiples::multiple_parts;
use crate::scopes::Scope;
use c_parser::{Primary, Product, Sum, Unary, Value};
use std::alloc::Global;
use suite_base::NoMemory;

/// The value of a sum.
#[cycle(sums)]
pub fn sum_value(alloc: Global, scope: &Scope<'_>, sum: &Sum) -> Result<Evaluation, NoMemory>
    ensures { IfOk result (λ v. spec.IsValueAt scope.now (term_of_sum scope.now.source.now sum.now) (spec.told v)) }
{
    let mut value = product_value(alloc, scope, &sum.first)?;
    for (sign, product) in sum.rest.as_slice() {
        let next = product_value(alloc, scope, product)?;
        value = value.summed(alloc, *sign, next)?;
    }
    Ok(value)
}

// The value of a product. Quotients and remainders are no expressions.
#[cycle(sums)]
fn product_value(
    alloc: Global,
    scope: &Scope<'_>,
    product: &Product,
) -> Result<Evaluation, NoMemory>
    ensures { IfOk result (λ v. spec.IsValueAt scope.now (product_of scope.now.source.now product.now) (spec.told v)) }
{
    if let Some((digits, name)) = multiple_parts(product) {
        return multiple(alloc, scope, digits, name);
    }
    let mut value = unary_value(alloc, scope, &product.first)?;
    for (sign, unary) in product.rest.as_slice() {
        let next = unary_value(alloc, scope, unary)?;
        value = value.multiplied(alloc, *sign, next)?;
    }
    Ok(value)
}

// The value of an operand with its signs.
#[cycle(sums)]
fn unary_value(alloc: Global, scope: &Scope<'_>, unary: &Unary) -> Result<Evaluation, NoMemory>
    ensures { IfOk result (λ v. spec.IsValueAt scope.now (unary_of scope.now.source.now unary.now) (spec.told v)) }
{
    let value = primary_value(alloc, scope, &unary.primary)?;
    value.signed(alloc, unary.signs.as_slice())
}

// The value of a number, a plain name or a bracket.
#[cycle(sums)]
fn primary_value(
    alloc: Global,
    scope: &Scope<'_>,
    primary: &Primary,
) -> Result<Evaluation, NoMemory>
    ensures { IfOk result (λ v. spec.IsValueAt scope.now (primary_of scope.now.source.now primary.now) (spec.told v)) }
{
    match primary {
        Primary::Integer(piece) => number(alloc, scope, *piece),
        Primary::Target(target) => named(alloc, scope, target),
        Primary::Bracket(value) => value_value(alloc, scope, value.get()),
        Primary::Literal(_) | Primary::Call(_, _) => Ok(Evaluation::nothing()),
    }
}

// The value of what stands in a bracket: of the sum that it is alone.
#[cycle(sums)]
pub fn value_value(alloc: Global, scope: &Scope<'_>, value: &Value) -> Result<Evaluation, NoMemory>
    ensures { IfOk result (λ v. spec.IsValueAt scope.now (value_of scope.now.source.now value.now).term (spec.told v)) }
{
    if value.arms.is_some() {
        return Ok(Evaluation::nothing());
    }
    let ands = value.test.items.as_slice();
    if ands.len() != 1 {
        return Ok(Evaluation::nothing());
    }
    let equals = ands[0].items.as_slice();
    if equals.len() != 1 {
        return Ok(Evaluation::nothing());
    }
    let equal = &equals[0];
    if !equal.rest.is_empty() {
        return Ok(Evaluation::nothing());
    }
    if !equal.first.rest.is_empty() {
        return Ok(Evaluation::nothing());
    }
    sum_value(alloc, scope, &equal.first.first)
}
