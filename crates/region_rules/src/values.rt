//! What the rules ask of the values in a tree.

ghost use Rattle.std.specs.Prelude.{◌≡◌};
ghost use Rattle.c_lexer.specs.Pieces.{bytes_of};
ghost use Rattle.region_trees.specs.Terms.{Call, sum_of, value_of, product_of, unary_of, primary_of, compare_of, equal_of, and_of, or_of};
ghost use Rattle.region_trees.specs.Layers.{terms_by};
ghost use Rattle.region_rules.specs.Facts.{facts_of};
ghost use Rattle.region_rules.specs.Facts as spec;

use crate::facts::{
    Affinity, Arguments, Facts, added, both, bracketed, called_with, equated, integer, multiplied,
    no_facts, ordered, plain, signed, with_argument,
};
use crate::numbers::number_size;
use c_lexer::piece_bytes;
use c_parser::{And, Compare, Equal, Or, Piece, Primary, Product, Sum, Target, Unary, Value};

/// Of a value.
#[cycle(values)]
pub fn value_facts(source: &[u8], value: &Value) -> Facts
    ensures { result ≡ facts_of (value_of source.now value.now).term }
{
    match &value.arms {
        None => or_facts(source, &value.test),
        Some(_) => no_facts(),
    }
}

// Of one operand more behind `&&` or `||`.
fn next_facts(before: Option<Facts>, next: Facts) -> Facts
    ensures { result ≡ spec.next_facts before next }
{
    match before {
        None => next,
        Some(before) => both(before, next),
    }
}

// Of all operands.
fn all_facts(facts: Option<Facts>) -> Facts
    ensures { result ≡ spec.all_facts facts }
{
    match facts {
        None => no_facts(),
        Some(facts) => facts,
    }
}

#[cycle(values)]
fn or_facts(source: &[u8], or: &Or) -> Facts
    ensures { result ≡ facts_of (or_of source.now or.now) }
{
    let mut facts = None;
    for item in or.items.as_slice() {
        facts = Some(next_facts(facts, and_facts(source, item)));
    }
    all_facts(facts)
}

#[cycle(values)]
fn and_facts(source: &[u8], and: &And) -> Facts
    ensures { result ≡ facts_of (and_of source.now and.now) }
{
    let mut facts = None;
    for item in and.items.as_slice() {
        facts = Some(next_facts(facts, equal_facts(source, item)));
    }
    all_facts(facts)
}

#[cycle(values)]
fn equal_facts(source: &[u8], equal: &Equal) -> Facts
    ensures { result ≡ facts_of (equal_of source.now equal.now) }
{
    let mut facts = compare_facts(source, &equal.first);
    for operand in equal.rest.as_slice() {
        facts = equated(operand.0, facts, compare_facts(source, &operand.1));
    }
    facts
}

#[cycle(values)]
fn compare_facts(source: &[u8], compare: &Compare) -> Facts
    ensures { result ≡ facts_of (compare_of source.now compare.now) }
{
    let mut facts = sum_facts(source, &compare.first);
    for operand in compare.rest.as_slice() {
        facts = ordered(operand.0, facts, sum_facts(source, &operand.1));
    }
    facts
}

/// Of a sum.
#[cycle(values)]
pub fn sum_facts(source: &[u8], sum: &Sum) -> Facts
    ensures { result ≡ facts_of (sum_of source.now sum.now).term }
{
    let mut facts = product_facts(source, &sum.first);
    for operand in sum.rest.as_slice() {
        facts = added(operand.0, facts, product_facts(source, &operand.1));
    }
    facts
}

#[cycle(values)]
fn product_facts(source: &[u8], product: &Product) -> Facts
    ensures { result ≡ facts_of (product_of source.now product.now) }
{
    let mut facts = unary_facts(source, &product.first);
    for operand in product.rest.as_slice() {
        facts = multiplied(operand.0, facts, unary_facts(source, &operand.1));
    }
    facts
}

#[cycle(values)]
fn unary_facts(source: &[u8], unary: &Unary) -> Facts
    ensures { result ≡ facts_of (unary_of source.now unary.now) }
{
    let mut facts = primary_facts(source, &unary.primary);
    for sign in unary.signs.as_slice() {
        facts = signed(*sign, facts);
    }
    facts
}

#[cycle(values)]
fn primary_facts(source: &[u8], primary: &Primary) -> Facts
    ensures { result ≡ facts_of (primary_of source.now primary.now) }
{
    match primary {
        Primary::Integer(digits) => integer(number_size(piece_bytes(source, *digits))),
        Primary::Literal(_) => no_facts(),
        Primary::Target(target) => name_facts(target),
        Primary::Call(name, arguments) => call_facts(source, *name, arguments.as_slice()),
        Primary::Bracket(value) => bracketed(value_facts(source, value.get())),
    }
}

// Of a name with its subscripts.
fn name_facts(target: &Target) -> Facts
    ensures { result ≡ spec.name_facts target.now }
{
    if target.subscripts.is_empty() {
        plain(Affinity::Named)
    } else {
        no_facts()
    }
}

#[cycle(values)]
fn call_facts(source: &[u8], name: Piece, arguments: &[Value]) -> Facts
    ensures { result ≡ facts_of (Call (bytes_of source.now name) name.from (terms_by (value_of source.now) arguments.now)) }
{
    let mut seen = Arguments::None;
    for argument in arguments {
        seen = with_argument(seen, value_facts(source, argument));
    }
    called_with(piece_bytes(source, name), seen)
}
