//! The first subscript of a reference that is not affine.

ghost use Rattle.std.specs.Prelude.{◌≡◌};
ghost use Rattle.region_trees.specs.Terms.{sum_of, value_of, target_of, product_of, unary_of, primary_of, compare_of, equal_of, and_of, or_of, arms_of};
ghost use Rattle.region_trees.specs.Layers.{terms_by};
ghost use Rattle.region_trees.specs.Regions.{first_some};
ghost use Rattle.region_rules.specs.Faults.{arms_fault_of, values_fault_of, reads_fault_of, reference_fault_of, subscript_fault_of};

use crate::values::sum_facts;
use c_parser::{And, Arms, Compare, Equal, Or, Primary, Product, Sum, Target, Unary, Value};

/// The first of two faults, in the order of the text.
pub fn earlier(first: Option<usize>, second: Option<usize>) -> Option<usize>
    ensures { result ≡ first_some first second }
{
    match first {
        None => second,
        Some(at) => Some(at),
    }
}

// The place of a subscript that is not affine.
fn subscript_fault(source: &[u8], subscript: &Sum) -> Option<usize>
    ensures { result ≡ subscript_fault_of (sum_of source.now subscript.now) }
{
    if sum_facts(source, subscript).affinity.is_affine() {
        None
    } else {
        Some(subscript.at)
    }
}

/// The place of a name's first subscript that is not affine.
pub fn target_fault(source: &[u8], target: &Target) -> Option<usize>
    ensures { result ≡ reference_fault_of (target_of source.now target.now) }
{
    let mut fault = None;
    for subscript in target.subscripts.as_slice() {
        fault = earlier(fault, subscript_fault(source, subscript));
    }
    fault
}

/// The first fault in the references of a value.
#[cycle(references)]
pub fn value_fault(source: &[u8], value: &Value) -> Option<usize>
    ensures { result ≡ reads_fault_of (value_of source.now value.now).term }
{
    if let Some(at) = or_fault(source, &value.test) {
        return Some(at);
    }
    match &value.arms {
        None => None,
        Some(arms) => arms_fault(source, arms.get()),
    }
}

#[cycle(references)]
fn arms_fault(source: &[u8], arms: &Arms) -> Option<usize>
    ensures { result ≡ arms_fault_of (arms_of source.now arms.now) }
{
    if let Some(at) = value_fault(source, &arms.yes) {
        return Some(at);
    }
    value_fault(source, &arms.no)
}

#[cycle(references)]
fn or_fault(source: &[u8], or: &Or) -> Option<usize>
    ensures { result ≡ reads_fault_of (or_of source.now or.now) }
{
    let mut fault = None;
    for item in or.items.as_slice() {
        fault = earlier(fault, and_fault(source, item));
    }
    fault
}

#[cycle(references)]
fn and_fault(source: &[u8], and: &And) -> Option<usize>
    ensures { result ≡ reads_fault_of (and_of source.now and.now) }
{
    let mut fault = None;
    for item in and.items.as_slice() {
        fault = earlier(fault, equal_fault(source, item));
    }
    fault
}

#[cycle(references)]
fn equal_fault(source: &[u8], equal: &Equal) -> Option<usize>
    ensures { result ≡ reads_fault_of (equal_of source.now equal.now) }
{
    let mut fault = compare_fault(source, &equal.first);
    for operand in equal.rest.as_slice() {
        fault = earlier(fault, compare_fault(source, &operand.1));
    }
    fault
}

#[cycle(references)]
fn compare_fault(source: &[u8], compare: &Compare) -> Option<usize>
    ensures { result ≡ reads_fault_of (compare_of source.now compare.now) }
{
    let mut fault = sum_fault(source, &compare.first);
    for operand in compare.rest.as_slice() {
        fault = earlier(fault, sum_fault(source, &operand.1));
    }
    fault
}

#[cycle(references)]
fn sum_fault(source: &[u8], sum: &Sum) -> Option<usize>
    ensures { result ≡ reads_fault_of (sum_of source.now sum.now).term }
{
    let mut fault = product_fault(source, &sum.first);
    for operand in sum.rest.as_slice() {
        fault = earlier(fault, product_fault(source, &operand.1));
    }
    fault
}

#[cycle(references)]
fn product_fault(source: &[u8], product: &Product) -> Option<usize>
    ensures { result ≡ reads_fault_of (product_of source.now product.now) }
{
    let mut fault = unary_fault(source, &product.first);
    for operand in product.rest.as_slice() {
        fault = earlier(fault, unary_fault(source, &operand.1));
    }
    fault
}

#[cycle(references)]
fn unary_fault(source: &[u8], unary: &Unary) -> Option<usize>
    ensures { result ≡ reads_fault_of (unary_of source.now unary.now) }
{
    primary_fault(source, &unary.primary)
}

#[cycle(references)]
fn primary_fault(source: &[u8], primary: &Primary) -> Option<usize>
    ensures { result ≡ reads_fault_of (primary_of source.now primary.now) }
{
    match primary {
        Primary::Integer(_) => None,
        Primary::Literal(_) => None,
        Primary::Target(target) => target_fault(source, target),
        Primary::Call(_, arguments) => arguments_fault(source, arguments.as_slice()),
        Primary::Bracket(value) => value_fault(source, value.get()),
    }
}

#[cycle(references)]
fn arguments_fault(source: &[u8], arguments: &[Value]) -> Option<usize>
    ensures { result ≡ values_fault_of (terms_by (value_of source.now) arguments.now) }
{
    let mut fault = None;
    for argument in arguments {
        fault = earlier(fault, value_fault(source, argument));
    }
    fault
}
