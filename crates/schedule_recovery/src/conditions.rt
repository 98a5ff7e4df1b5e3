//! What an original and a target are asked before a script is made.

ghost use Rattle.std.specs.Prelude.{◌≡◌, ◌≤◌, length, None, true, IfOk, IfErr, OnOk};
ghost use Rattle.suite_base.specs.Limits.{max_statements};
ghost use Rattle.scop_core.specs.Assembly.{HasCause};
ghost use Rattle.chlore_recover.specs.Recoverable.{rows_of, ends_apart as end_apart};
ghost use Rattle.chlore_recover.specs.Refusals as refusal;
ghost use Rattle.chlore_recover.specs.Triangles as triangle;

use crate::lookups::differ;
use crate::rows::{is_sign, is_signed_unit, is_zero, last_place, value_ending_at};
use scop_core::{Affine, Scop, Statement};
use std::alloc::Global;
use suite_base::{Fail, List, NoMemory, Refusal};

// Whether a level is the iterator at this place or its negative, alone.
fn is_clans_level(k: usize, level: &Affine) -> bool
    ensures { result ≡ refusal.is_clans_level k level.now }
{
    if !is_signed_unit(k, level.iterators()) {
        return false;
    }
    if !is_zero(level.parameters()) {
        return false;
    }
    level.constant().value() == 0
}

// Whether the levels are the iterators in turn or their negatives, alone.
fn are_clans_levels(levels: &[Affine]) -> bool
    ensures { result ≡ refusal.are_clans_levels 0 levels.now }
{
    for k in 0..levels.len() {
        if !is_clans_level(k, &levels[k]) {
            return false;
        }
    }
    true
}

// Whether a statement is in Clan's form.
fn has_clans_form(statement: &Statement) -> bool
    ensures { result ≡ refusal.has_clans_form statement.now }
{
    if statement.schedule.floors.len() != 0 {
        return false;
    }
    if statement.schedule.levels.len() != statement.body.iterators.len() {
        return false;
    }
    are_clans_levels(statement.schedule.levels.as_slice())
}

// Whether these are so many levels that end in 1 or -1, at iterators that differ.
fn ends_apart(alloc: Global, count: usize, levels: &[Affine]) -> Result<bool, NoMemory>
    ensures { IfOk result (λ apart. apart ≡ end_apart count (rows_of levels.now)) }
{
    if levels.len() != count {
        return Ok(false);
    }
    let mut places = List::with_capacity(alloc, count)?;
    for level in levels {
        let row = level.iterators();
        let place = last_place(row);
        if !is_sign(value_ending_at(place, row)) {
            return Ok(false);
        }
        places.push(place)?;
    }
    Ok(differ(places.as_slice()))
}

// Whether a statement is recoverable.
fn can_be_recovered(alloc: Global, statement: &Statement) -> Result<bool, NoMemory>
    ensures { IfOk result (λ yes. yes ≡ refusal.can_be_recovered statement.now) }
{
    if statement.schedule.floors.len() != 0 {
        return Ok(false);
    }
    ends_apart(
        alloc,
        statement.body.iterators.len(),
        statement.schedule.levels.as_slice(),
    )
}

// The number of the first statement with another number of iterators than the target's.
fn first_different(original: &[Statement], target: &[Statement]) -> Option<u32>
    requires same { length original.now ≡ length target.now }
    requires few { length original.now ≤ max_statements }
    ensures { result ≡ refusal.first_different 1 original.now target.now }
{
    for k in 0..original.len() {
        if original[k].body.iterators.len() != target[k].body.iterators.len() {
            return Some(k as u32 + 1);
        }
    }
    None
}

// The number of the first statement that isn't in Clan's form.
fn first_not_clans(statements: &[Statement]) -> Option<u32>
    requires { length statements.now ≤ max_statements }
    ensures { result ≡ refusal.first_failing refusal.has_clans_form 1 statements.now }
{
    for k in 0..statements.len() {
        if !has_clans_form(&statements[k]) {
            return Some(k as u32 + 1);
        }
    }
    None
}

// The number of the first statement that isn't recoverable.
fn first_lost(alloc: Global, statements: &[Statement]) -> Result<Option<u32>, NoMemory>
    requires { length statements.now ≤ max_statements }
    ensures { IfOk result (λ found. found ≡ refusal.first_failing refusal.can_be_recovered 1 statements.now) }
{
    for k in 0..statements.len() {
        let recoverable = can_be_recovered(alloc, &statements[k])?;
        if !recoverable {
            return Ok(Some(k as u32 + 1));
        }
    }
    Ok(None)
}

// Whether both have as many statements and parameters.
fn same_counts(original: &Scop, target: &Scop) -> bool
    ensures { result ≡ refusal.same_counts original.now target.now }
{
    if original.statement_count() != target.statement_count() {
        return false;
    }
    original.context().shape().parameters == target.context().shape().parameters
}

// The refusal of SCoPs that differ in their counts.
fn difference(original: &Scop, target: &Scop) -> Option<Refusal>
    ensures { result ≡ refusal.difference_of original.now target.now }
{
    if !same_counts(original, target) {
        return Some(Refusal::Different(0));
    }
    match first_different(original.statements(), target.statements()) {
        Some(k) => Some(Refusal::Different(k)),
        None => None,
    }
}

/// The refusal of an original and a target, whatever the length of their script.
pub fn pair_refusal(
    alloc: Global,
    original: &Scop,
    target: &Scop,
) -> Result<Option<Refusal>, NoMemory>
    ensures { IfOk result (λ found. found ≡ refusal.pair_refusal original.now target.now) }
{
    if let Some(refusal) = difference(original, target) {
        return Ok(Some(refusal));
    }
    if let Some(k) = first_not_clans(original.statements()) {
        return Ok(Some(Refusal::NotClanForm(k)));
    }
    match first_lost(alloc, target.statements())? {
        Some(k) => Ok(Some(Refusal::NotRecoverable(k))),
        None => Ok(None),
    }
}
