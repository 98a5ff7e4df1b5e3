//! What the statements under a prefix are asked before they are edited.

ghost use Rattle.std.specs.Prelude.{◌≡◌, ◌<◌, ◌==◌, ◌&&◌, pos, int_le, not, length, map, nat_le, true, false};
ghost use Rattle.std.specs.Ordering.{int_eq};
ghost use Rattle.std.specs.List.{list_any};
ghost use Rattle.beta_tree.specs.Vectors.{is_leaf as has_leaf, no_statement};
ghost use Rattle.clay_commands.specs.Drafts.{betas_of, is_under as has_prefix};
ghost use Rattle.clay_commands.specs.Refusals.{has_level as has_that_level, is_within as is_level_within, can_cut as can_be_cut, level_then, has_full_part as has_full, all_under, most_under, cut_limit, condition_under, limit_of};
ghost use Rattle.clay_commands.specs.Steps.{IsLevelCommand, IsSplit};

use crate::changes::{is_under, what_follows};
use crate::leaves::Leaf;
use clay_script::Command;
use row_core::Coeff;
use scop_core::Statement;
use suite_base::{MAX_LEVELS, MAX_LOCALS, MAX_ROWS, MAX_STATEMENTS, Refusal, Which};

/// Whether some statement is under the prefix.
pub fn has_statement(prefix: &[u32], leaves: &[Leaf]) -> bool
    ensures { result ≡ not (no_statement prefix.now (betas_of leaves.now)) }
{
    for leaf in leaves {
        if is_under(prefix, leaf.beta.as_slice()) {
            return true;
        }
    }
    false
}

// Whether the statement has a level `k`, counted from 1.
fn has_level(k: Coeff, statement: &Statement) -> bool
    ensures { result ≡ has_that_level k statement.now }
{
    1 <= k.value() && k.value() <= statement.schedule.levels.len() as i128
}

// Whether level `k` is one of each statement under the prefix.
fn is_within(k: Coeff, prefix: &[u32], leaves: &[Leaf]) -> bool
    ensures { result ≡ is_level_within k prefix.now leaves.now }
{
    for leaf in leaves {
        if is_under(prefix, leaf.beta.as_slice()) && !has_level(k, &leaf.statement) {
            return false;
        }
    }
    true
}

// Whether levels `k` and `l` both are.
fn are_within(k: Coeff, l: Coeff, prefix: &[u32], leaves: &[Leaf]) -> bool
    ensures { result ≡ (is_level_within k prefix.now leaves.now && is_level_within l prefix.now leaves.now) }
{
    is_within(k, prefix, leaves) && is_within(l, prefix, leaves)
}

// Whether level `k` can be cut into strips whose level stands at `t`.
fn can_cut(k: Coeff, t: Coeff, prefix: &[u32], leaves: &[Leaf]) -> bool
    ensures { result ≡ can_be_cut k t prefix.now leaves.now }
{
    is_within(k, prefix, leaves)
        && prefix.len() as i128 <= k.value()
        && 1 <= t.value()
        && t.value() <= k.value()
}

// The refusal where a level is not within, or an argument is not as it has to be.
fn level_first(i: u32, level: bool, argument: bool) -> Option<Refusal>
    ensures { result ≡ level_then i level argument }
{
    if !level {
        return Some(Refusal::BadLevel(i));
    }
    if !argument {
        return Some(Refusal::BadArgument(i));
    }
    None
}

// Whether a statement's vector is the prefix.
fn is_leaf(prefix: &[u32], leaves: &[Leaf]) -> bool
    ensures { result ≡ has_leaf prefix.now (betas_of leaves.now) }
{
    for leaf in leaves {
        if let Some([]) = what_follows(prefix, leaf.beta.as_slice()) {
            return true;
        }
    }
    false
}

// Whether each statement under the prefix has `n` iterators.
fn have_iterators(n: usize, prefix: &[u32], leaves: &[Leaf]) -> bool
    ensures { result ≡ all_under prefix.now (λ s. n == length s.body.iterators) leaves.now }
{
    for leaf in leaves {
        if is_under(prefix, leaf.beta.as_slice()) && n != leaf.statement.body.iterators.len() {
            return false;
        }
    }
    true
}

// Whether a condition of iterators and parameters can split the one statement under the prefix.
fn can_split(
    iterators: usize,
    parameters: usize,
    all: usize,
    prefix: &[u32],
    leaves: &[Leaf],
) -> bool
    ensures { result ≡ (has_leaf prefix.now (betas_of leaves.now) && (all_under prefix.now (λ s. iterators == length s.body.iterators) leaves.now && parameters == all)) }
{
    is_leaf(prefix, leaves) && (have_iterators(iterators, prefix, leaves) && parameters == all)
}

/// The condition that a command of levels or `iss` fails, where some statement is under its prefix.
pub fn level_condition(
    parameters: usize,
    i: u32,
    command: &Command,
    prefix: &[u32],
    leaves: &[Leaf],
) -> Option<Refusal>
    requires { IsLevelCommand command.now }
    ensures { result ≡ condition_under parameters i command.now prefix.now leaves.now }
{
    match command {
        Command::Interchange(_, k, l) => level_first(i, are_within(*k, *l, prefix, leaves), true),
        Command::Skew(_, k, l, _) => {
            level_first(
                i,
                are_within(*k, *l, prefix, leaves),
                k.value() != l.value(),
            )
        }
        Command::Shift(_, k, by, _) => {
            level_first(i, is_within(*k, prefix, leaves), by.len() == parameters)
        }
        Command::Reverse(_, k) => level_first(i, is_within(*k, prefix, leaves), true),
        Command::Stripmine(_, k, size) => {
            level_first(i, can_cut(*k, *k, prefix, leaves), 1 <= size.value())
        }
        Command::Tile(_, k, size, t) => {
            level_first(i, can_cut(*k, *t, prefix, leaves), 1 <= size.value())
        }
        Command::Iss(_, xs, ns, _) => level_first(
            i,
            true,
            can_split(xs.len(), ns.len(), parameters, prefix, leaves),
        ),
        _ => unreachable!(),
    }
}

// The greatest number of levels of a statement under the prefix.
fn most_levels(prefix: &[u32], leaves: &[Leaf]) -> usize
    ensures { result ≡ most_under prefix.now (λ s. length s.schedule.levels) leaves.now }
{
    let mut most = 0;
    for leaf in leaves {
        if is_under(prefix, leaf.beta.as_slice()) {
            most = most.max(leaf.statement.schedule.levels.len());
        }
    }
    most
}

// The greatest number of floors of a statement under the prefix.
fn most_floors(prefix: &[u32], leaves: &[Leaf]) -> usize
    ensures { result ≡ most_under prefix.now (λ s. length s.schedule.floors) leaves.now }
{
    let mut most = 0;
    for leaf in leaves {
        if is_under(prefix, leaf.beta.as_slice()) {
            most = most.max(leaf.statement.schedule.floors.len());
        }
    }
    most
}

/// The limit that one more level and one more floor pass.
pub fn strip_limit(i: u32, prefix: &[u32], leaves: &[Leaf]) -> Option<Refusal>
    ensures { result ≡ cut_limit i prefix.now leaves.now }
{
    if most_levels(prefix, leaves) >= MAX_LEVELS {
        return Some(Refusal::Limit(Which::Levels, i));
    }
    if most_floors(prefix, leaves) >= MAX_LOCALS {
        return Some(Refusal::Limit(Which::Locals, i));
    }
    None
}

// Whether some part of the statement's domain has as many rows as a part may have.
fn has_full_part(statement: &Statement) -> bool
    ensures { result ≡ has_full statement.now }
{
    let parts = statement.domain.parts();
    for part in parts {
        if part.row_count() >= MAX_ROWS {
            return true;
        }
    }
    false
}

// Whether each part of the domain of a statement under the prefix has room for one more row.
fn have_room(prefix: &[u32], leaves: &[Leaf]) -> bool
    ensures { result ≡ all_under prefix.now (λ s. not (has_full s)) leaves.now }
{
    for leaf in leaves {
        if is_under(prefix, leaf.beta.as_slice()) && has_full_part(&leaf.statement) {
            return false;
        }
    }
    true
}

/// The limit that one more statement, or one more row of it, passes.
pub fn split_limit(i: u32, command: &Command, prefix: &[u32], leaves: &[Leaf]) -> Option<Refusal>
    requires { IsSplit command.now prefix.now }
    ensures { result ≡ limit_of i command.now leaves.now }
{
    if leaves.len() >= MAX_STATEMENTS {
        return Some(Refusal::Limit(Which::Statements, i));
    }
    if !have_room(prefix, leaves) {
        return Some(Refusal::Limit(Which::Rows, i));
    }
    None
}
