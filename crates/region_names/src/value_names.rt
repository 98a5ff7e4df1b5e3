//! The names of values, told in the order of the text.

ghost use Rattle.std.specs.Prelude.{◌≡◌, true, OnOk};
ghost use Rattle.region_names.specs.Registers.{after};
ghost use Rattle.region_names.specs.Walks.{value_names, arms_names, or_names, and_names, equal_names, compare_names, sum_names, product_names, primary_names, argument_names, subscript_names};

use crate::occurrences::{tell_element, tell_function};
use crate::registers::Register;
use c_parser::{And, Arms, Compare, Equal, Or, Piece, Primary, Product, Sum, Target, Value};
use suite_base::NoMemory;

/// The names of a value, at a place of control or in a right side.
#[cycle(values)]
pub fn tell_value<'a>(
    source: &'a [u8],
    scope: &[Piece],
    control: bool,
    value: &Value,
    register: &mut Register<'a>,
) -> Result<(), NoMemory>
    ensures { OnOk result (register.new ≡ after register.old (value_names source.now scope.now control value.now)) }
{
    tell_or(source, scope, control, &value.test, register)?;
    match &value.arms {
        None => Ok(()),
        Some(arms) => tell_arms(source, scope, control, arms.get(), register),
    }
}

// The names of the two arms of a choice.
#[cycle(values)]
fn tell_arms<'a>(
    source: &'a [u8],
    scope: &[Piece],
    control: bool,
    arms: &Arms,
    register: &mut Register<'a>,
) -> Result<(), NoMemory>
    ensures { OnOk result (register.new ≡ after register.old (arms_names source.now scope.now control arms.now)) }
{
    tell_value(source, scope, control, &arms.yes, register)?;
    tell_value(source, scope, control, &arms.no, register)
}

// The names of what `||` joins.
#[cycle(values)]
fn tell_or<'a>(
    source: &'a [u8],
    scope: &[Piece],
    control: bool,
    or: &Or,
    register: &mut Register<'a>,
) -> Result<(), NoMemory>
    ensures { OnOk result (register.new ≡ after register.old (or_names source.now scope.now control or.now)) }
{
    for item in or.items.as_slice() {
        tell_and(source, scope, control, item, register)?;
    }
    Ok(())
}

// The names of what `&&` joins.
#[cycle(values)]
fn tell_and<'a>(
    source: &'a [u8],
    scope: &[Piece],
    control: bool,
    and: &And,
    register: &mut Register<'a>,
) -> Result<(), NoMemory>
    ensures { OnOk result (register.new ≡ after register.old (and_names source.now scope.now control and.now)) }
{
    for item in and.items.as_slice() {
        tell_equal(source, scope, control, item, register)?;
    }
    Ok(())
}

// The names of comparisons by `==` and `!=`.
#[cycle(values)]
fn tell_equal<'a>(
    source: &'a [u8],
    scope: &[Piece],
    control: bool,
    equal: &Equal,
    register: &mut Register<'a>,
) -> Result<(), NoMemory>
    ensures { OnOk result (register.new ≡ after register.old (equal_names source.now scope.now control equal.now)) }
{
    tell_compare(source, scope, control, &equal.first, register)?;
    for item in equal.rest.as_slice() {
        tell_compare(source, scope, control, &item.1, register)?;
    }
    Ok(())
}

// The names of comparisons of order.
#[cycle(values)]
fn tell_compare<'a>(
    source: &'a [u8],
    scope: &[Piece],
    control: bool,
    compare: &Compare,
    register: &mut Register<'a>,
) -> Result<(), NoMemory>
    ensures { OnOk result (register.new ≡ after register.old (compare_names source.now scope.now control compare.now)) }
{
    tell_sum(source, scope, control, &compare.first, register)?;
    for item in compare.rest.as_slice() {
        tell_sum(source, scope, control, &item.1, register)?;
    }
    Ok(())
}

/// The names of a sum.
#[cycle(values)]
pub fn tell_sum<'a>(
    source: &'a [u8],
    scope: &[Piece],
    control: bool,
    sum: &Sum,
    register: &mut Register<'a>,
) -> Result<(), NoMemory>
    ensures { OnOk result (register.new ≡ after register.old (sum_names source.now scope.now control sum.now)) }
{
    tell_product(source, scope, control, &sum.first, register)?;
    for item in sum.rest.as_slice() {
        tell_product(source, scope, control, &item.1, register)?;
    }
    Ok(())
}

// The names of a product; signs have none.
#[cycle(values)]
fn tell_product<'a>(
    source: &'a [u8],
    scope: &[Piece],
    control: bool,
    product: &Product,
    register: &mut Register<'a>,
) -> Result<(), NoMemory>
    ensures { OnOk result (register.new ≡ after register.old (product_names source.now scope.now control product.now)) }
{
    tell_primary(source, scope, control, &product.first.primary, register)?;
    for item in product.rest.as_slice() {
        tell_primary(source, scope, control, &item.1.primary, register)?;
    }
    Ok(())
}

// The names of an operand.
#[cycle(values)]
fn tell_primary<'a>(
    source: &'a [u8],
    scope: &[Piece],
    control: bool,
    primary: &Primary,
    register: &mut Register<'a>,
) -> Result<(), NoMemory>
    ensures { OnOk result (register.new ≡ after register.old (primary_names source.now scope.now control primary.now)) }
{
    match primary {
        Primary::Integer(_) => Ok(()),
        Primary::Literal(_) => Ok(()),
        Primary::Target(target) => {
            tell_element(source, scope, control, target, register)?;
            tell_subscripts(source, scope, target, register)
        }
        Primary::Call(name, arguments) => {
            tell_function(source, *name, register)?;
            tell_arguments(source, scope, control, arguments.as_slice(), register)
        }
        Primary::Bracket(value) => tell_value(source, scope, control, value.get(), register),
    }
}

// The names of the arguments of a call.
#[cycle(values)]
fn tell_arguments<'a>(
    source: &'a [u8],
    scope: &[Piece],
    control: bool,
    arguments: &[Value],
    register: &mut Register<'a>,
) -> Result<(), NoMemory>
    ensures { OnOk result (register.new ≡ after register.old (argument_names source.now scope.now control arguments.now)) }
{
    for item in arguments {
        tell_value(source, scope, control, item, register)?;
    }
    Ok(())
}

/// The names of the subscripts of an element; each is a place of control.
#[cycle(values)]
pub fn tell_subscripts<'a>(
    source: &'a [u8],
    scope: &[Piece],
    target: &Target,
    register: &mut Register<'a>,
) -> Result<(), NoMemory>
    ensures { OnOk result (register.new ≡ after register.old (subscript_names source.now scope.now target.now)) }
{
    for item in target.subscripts.as_slice() {
        tell_sum(source, scope, true, item, register)?;
    }
    Ok(())
}
