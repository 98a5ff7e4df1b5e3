//! The layers of conditions.

ghost use Rattle.std.specs.Prelude.{◌≡◌, IfOk};
ghost use Rattle.clan_rows.specs.Comparisons.{meaning_of};
ghost use Rattle.clan_rows.specs.Contents.{said};
ghost use Rattle.region_forms.specs.Conditions as spec;
ghost use Rattle.region_trees.specs.Layers.{term_of_sum};
ghost use Rattle.region_trees.specs.Terms.{Compares, and_of, compare_of, equal_of, of_equal, or_of, order_of, unary_of, value_of};

use crate::scopes::Scope;
use crate::sums::sum_value;
use c_parser::{And, Compare, Equal, EqualSign, Or, Primary, Rel, Sum, Unary, UnarySign, Value};
use clan_rows::{Comparison, Count, Layer};
use std::alloc::Global;
use suite_base::{List, NoMemory};

/// The layer of a condition that is to have this truth.
#[cycle(conditions)]
pub fn condition_layer(
    alloc: Global,
    scope: &Scope<'_>,
    truth: bool,
    value: &Value,
) -> Result<Layer, NoMemory>
    ensures { IfOk result (λ l. spec.IsTestAt scope.now truth (value_of scope.now.source.now value.now).term (said l)) }
{
    if value.arms.is_some() {
        return Ok(no_layer(alloc));
    }
    or_layer(alloc, scope, truth, &value.test)
}

// Of what `||` joins.
#[cycle(conditions)]
fn or_layer(alloc: Global, scope: &Scope<'_>, truth: bool, or: &Or) -> Result<Layer, NoMemory>
    ensures { IfOk result (λ l. spec.IsTestAt scope.now truth (or_of scope.now.source.now or.now) (said l)) }
{
    let mut layer = None;
    for and in or.items.as_slice() {
        let next = and_layer(alloc, scope, truth, and)?;
        layer = Some(joined(alloc, !truth, layer, next)?);
    }
    Ok(layer_or_none(alloc, layer))
}

// Of what `&&` joins.
#[cycle(conditions)]
fn and_layer(alloc: Global, scope: &Scope<'_>, truth: bool, and: &And) -> Result<Layer, NoMemory>
    ensures { IfOk result (λ l. spec.IsTestAt scope.now truth (and_of scope.now.source.now and.now) (said l)) }
{
    let mut layer = None;
    for equal in and.items.as_slice() {
        let next = equal_layer(alloc, scope, truth, equal)?;
        layer = Some(joined(alloc, truth, layer, next)?);
    }
    Ok(layer_or_none(alloc, layer))
}

// Of one comparison by `==` or `!=`, or of what stands without one.
#[cycle(conditions)]
fn equal_layer(
    alloc: Global,
    scope: &Scope<'_>,
    truth: bool,
    equal: &Equal,
) -> Result<Layer, NoMemory>
    ensures { IfOk result (λ l. spec.IsTestAt scope.now truth (equal_of scope.now.source.now equal.now) (said l)) }
{
    match equal.rest.as_slice() {
        [] => compare_layer(alloc, scope, truth, &equal.first),
        [(sign, right)] => {
            if !equal.first.rest.is_empty() {
                return Ok(no_layer(alloc));
            }
            if !right.rest.is_empty() {
                return Ok(no_layer(alloc));
            }
            sides_layer(
                alloc,
                scope,
                truth,
                equality(*sign),
                &equal.first.first,
                &right.first,
            )
        }
        _ => Ok(no_layer(alloc)),
    }
}

// Of one comparison of order, or of what stands without one.
#[cycle(conditions)]
fn compare_layer(
    alloc: Global,
    scope: &Scope<'_>,
    truth: bool,
    compare: &Compare,
) -> Result<Layer, NoMemory>
    ensures { IfOk result (λ l. spec.IsTestAt scope.now truth (compare_of scope.now.source.now compare.now) (said l)) }
{
    match compare.rest.as_slice() {
        [] => sum_layer(alloc, scope, truth, &compare.first),
        [(rel, right)] => sides_layer(alloc, scope, truth, order(*rel), &compare.first, right),
        _ => Ok(no_layer(alloc)),
    }
}

// Of a sum, which is an operand with its signs.
#[cycle(conditions)]
fn sum_layer(alloc: Global, scope: &Scope<'_>, truth: bool, sum: &Sum) -> Result<Layer, NoMemory>
    ensures { IfOk result (λ l. spec.IsTestAt scope.now truth (term_of_sum scope.now.source.now sum.now) (said l)) }
{
    if !sum.rest.is_empty() {
        return Ok(no_layer(alloc));
    }
    if !sum.first.rest.is_empty() {
        return Ok(no_layer(alloc));
    }
    unary_layer(alloc, scope, truth, &sum.first.first)
}

// Of a bracket behind signs: each `!` turns the truth round.
#[cycle(conditions)]
fn unary_layer(
    alloc: Global,
    scope: &Scope<'_>,
    truth: bool,
    unary: &Unary,
) -> Result<Layer, NoMemory>
    ensures { IfOk result (λ l. spec.IsTestAt scope.now truth (unary_of scope.now.source.now unary.now) (said l)) }
{
    match &unary.primary {
        Primary::Bracket(value) => {
            let truth = turned(truth, unary.signs.as_slice());
            condition_layer(alloc, scope, truth, value.get())
        }
        Primary::Integer(_) => Ok(no_layer(alloc)),
        Primary::Literal(_) => Ok(no_layer(alloc)),
        Primary::Target(_) => Ok(no_layer(alloc)),
        Primary::Call(_, _) => Ok(no_layer(alloc)),
    }
}

// Whether the truth that is asked behind these signs is asked of the bracket.
fn turned(truth: bool, signs: &[UnarySign]) -> bool
    ensures { result ≡ spec.turned truth signs.now }
{
    let mut truth = truth;
    for sign in signs {
        truth = behind(truth, *sign);
    }
    truth
}

// The truth that is asked behind one sign.
fn behind(truth: bool, sign: UnarySign) -> bool
    ensures { result ≡ spec.behind truth sign }
{
    match sign {
        UnarySign::Not => !truth,
        UnarySign::Plus | UnarySign::Minus => truth,
    }
}

// The layer of what is no condition.
fn no_layer(alloc: Global) -> Layer {
    Layer {
        count: Count {
            parts: 0,
            rows: 0,
            locals: 0,
        },
        fits: false,
        parts: List::new(alloc),
    }
}

// The layer of what is joined, once all operands are.
fn layer_or_none(alloc: Global, layer: Option<Layer>) -> Layer
    ensures { spec.IsThere layer result }
{
    match layer {
        Some(layer) => layer,
        None => no_layer(alloc),
    }
}

// The layer with one operand more: both have to hold where it is `crossed`, else one of them.
fn joined(
    alloc: Global,
    crossed: bool,
    layer: Option<Layer>,
    next: Layer,
) -> Result<Layer, NoMemory>
    ensures { IfOk result (λ l. said l ≡ spec.joined_layer crossed (spec.made_layer layer) (said next)) }
{
    match layer {
        None => Ok(next),
        Some(layer) => {
            if crossed {
                layer.crossed(alloc, &next)
            } else {
                layer.in_turn(alloc, &next)
            }
        }
    }
}

// The layer of a comparison of two sums, or of a remainder with an integer.
fn sides_layer(
    alloc: Global,
    scope: &Scope<'_>,
    truth: bool,
    comparison: Comparison,
    left: &Sum,
    right: &Sum,
) -> Result<Layer, NoMemory>
    ensures { IfOk result (λ l. spec.AreSidesAt scope.now truth (meaning_of comparison) (term_of_sum scope.now.source.now left.now) (term_of_sum scope.now.source.now right.now) (said l)) }
{
    let sign = asked(truth, comparison);
    let left = sum_value(alloc, scope, left)?;
    let right = sum_value(alloc, scope, right)?;
    match &left.quotient {
        Some(quotient) => {
            let quotient = quotient.get();
            Layer::of_remainder(alloc, sign, &quotient.dividend, quotient.divisor)
        }
        None => Layer::of_comparison(alloc, sign, &left.form, &right.form),
    }
}

// The comparison that is asked where one is to have this truth.
fn asked(truth: bool, comparison: Comparison) -> Comparison
    ensures { meaning_of result ≡ spec.asked truth (meaning_of comparison) }
{
    if truth {
        comparison
    } else {
        comparison.opposite()
    }
}

// What the sign of an equality means.
fn equality(sign: EqualSign) -> Comparison
    ensures { of_equal sign ≡ Compares (meaning_of result) }
{
    match sign {
        EqualSign::Same => Comparison::Equal,
        EqualSign::Differ => Comparison::Unequal,
    }
}

// What the sign of a comparison of order means.
fn order(rel: Rel) -> Comparison
    ensures { order_of rel ≡ meaning_of result }
{
    match rel {
        Rel::Less => Comparison::Less,
        Rel::LessEqual => Comparison::LessOrEqual,
        Rel::Greater => Comparison::Greater,
        Rel::GreaterEqual => Comparison::GreaterOrEqual,
    }
}
