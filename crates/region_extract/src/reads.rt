//! The reads of a value, in the order of the text.

ghost use Rattle.std.specs.Prelude.{◌≡◌, OnOk};
ghost use Rattle.region_extract.specs.Walks as spec;
ghost use Rattle.region_trees.specs.Layers.{terms_by};
ghost use Rattle.region_trees.specs.Terms.{and_of, arms_of, compare_of, equal_of, or_of, primary_of, product_of, sum_of, value_of};

use crate::accesses::read_target;
use c_parser::{And, Arms, Compare, Equal, Or, Primary, Product, Sum, Value};
use clan_walk::Extraction;
use std::alloc::Global;
use suite_base::NoMemory;

/// Adds the reads of a value.
#[cycle(reads)]
pub fn read_value(
    alloc: Global,
    source: &[u8],
    value: &Value,
    place: &mut Extraction,
) -> Result<(), NoMemory>
    ensures { OnOk result (spec.Reads (value_of source.now value.now).term place.old place.new) }
{
    read_or(alloc, source, &value.test, place)?;
    match &value.arms {
        None => Ok(()),
        Some(arms) => read_arms(alloc, source, arms.get(), place),
    }
}

// Those of the two arms of a choice.
#[cycle(reads)]
fn read_arms(
    alloc: Global,
    source: &[u8],
    arms: &Arms,
    place: &mut Extraction,
) -> Result<(), NoMemory>
    ensures { OnOk result (spec.ReadsBoth (arms_of source.now arms.now) place.old place.new) }
{
    read_value(alloc, source, &arms.yes, place)?;
    read_value(alloc, source, &arms.no, place)
}

// Those of what `||` joins.
#[cycle(reads)]
fn read_or(alloc: Global, source: &[u8], or: &Or, place: &mut Extraction) -> Result<(), NoMemory>
    ensures { OnOk result (spec.Reads (or_of source.now or.now) place.old place.new) }
{
    for item in or.items.as_slice() {
        read_and(alloc, source, item, place)?;
    }
    Ok(())
}

// Those of what `&&` joins.
#[cycle(reads)]
fn read_and(alloc: Global, source: &[u8], and: &And, place: &mut Extraction) -> Result<(), NoMemory>
    ensures { OnOk result (spec.Reads (and_of source.now and.now) place.old place.new) }
{
    for item in and.items.as_slice() {
        read_equal(alloc, source, item, place)?;
    }
    Ok(())
}

// Those of comparisons by `==` and `!=`.
#[cycle(reads)]
fn read_equal(
    alloc: Global,
    source: &[u8],
    equal: &Equal,
    place: &mut Extraction,
) -> Result<(), NoMemory>
    ensures { OnOk result (spec.Reads (equal_of source.now equal.now) place.old place.new) }
{
    read_compare(alloc, source, &equal.first, place)?;
    for item in equal.rest.as_slice() {
        read_compare(alloc, source, &item.1, place)?;
    }
    Ok(())
}

// Those of comparisons of order.
#[cycle(reads)]
fn read_compare(
    alloc: Global,
    source: &[u8],
    compare: &Compare,
    place: &mut Extraction,
) -> Result<(), NoMemory>
    ensures { OnOk result (spec.Reads (compare_of source.now compare.now) place.old place.new) }
{
    read_sum(alloc, source, &compare.first, place)?;
    for item in compare.rest.as_slice() {
        read_sum(alloc, source, &item.1, place)?;
    }
    Ok(())
}

// Those of a sum.
#[cycle(reads)]
fn read_sum(alloc: Global, source: &[u8], sum: &Sum, place: &mut Extraction) -> Result<(), NoMemory>
    ensures { OnOk result (spec.Reads (sum_of source.now sum.now).term place.old place.new) }
{
    read_product(alloc, source, &sum.first, place)?;
    for item in sum.rest.as_slice() {
        read_product(alloc, source, &item.1, place)?;
    }
    Ok(())
}

// Those of a product; signs have none.
#[cycle(reads)]
fn read_product(
    alloc: Global,
    source: &[u8],
    product: &Product,
    place: &mut Extraction,
) -> Result<(), NoMemory>
    ensures { OnOk result (spec.Reads (product_of source.now product.now) place.old place.new) }
{
    read_primary(alloc, source, &product.first.primary, place)?;
    for item in product.rest.as_slice() {
        read_primary(alloc, source, &item.1.primary, place)?;
    }
    Ok(())
}

// Those of an operand.
#[cycle(reads)]
fn read_primary(
    alloc: Global,
    source: &[u8],
    primary: &Primary,
    place: &mut Extraction,
) -> Result<(), NoMemory>
    ensures { OnOk result (spec.Reads (primary_of source.now primary.now) place.old place.new) }
{
    match primary {
        Primary::Integer(_) => Ok(()),
        Primary::Literal(_) => Ok(()),
        Primary::Target(target) => read_target(alloc, source, target, place),
        Primary::Call(_, arguments) => read_arguments(alloc, source, arguments.as_slice(), place),
        Primary::Bracket(value) => read_value(alloc, source, value.get(), place),
    }
}

// Those of the arguments of a call.
#[cycle(reads)]
fn read_arguments(
    alloc: Global,
    source: &[u8],
    arguments: &[Value],
    place: &mut Extraction,
) -> Result<(), NoMemory>
    ensures { OnOk result (spec.ReadsAll (terms_by (value_of source.now) arguments.now) place.old place.new) }
{
    for item in arguments {
        read_value(alloc, source, item, place)?;
    }
    Ok(())
}
