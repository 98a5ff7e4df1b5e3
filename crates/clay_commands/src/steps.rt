//! One command of a script, with its refusals, on the leaves of a draft.

ghost use Rattle.std.specs.Prelude.{◌≡◌, ◌<◌, ◌≤◌, ◌^◌, ◌+◌, None, Ok, false, map, length, IfErr, IfOk, OnOk};
ghost use Rattle.beta_tree.specs.Vectors.{no_statement};
ghost use Rattle.scop_core.specs.Assembly.{HasCause};
ghost use Rattle.clay_commands.specs.Arguments.{prefix_in};
ghost use Rattle.clay_commands.specs.Drafts.{betas_of, draft_after};
ghost use Rattle.clay_commands.specs.Refusals.{refused};
ghost use Rattle.clay_commands.specs.Steps.{IsCut, IsPlainCommand, IsVectorCommand, edit_fail_of, refusal_under, vector_answer};
ghost use Rattle.clay_commands.specs.Soundness.{IsSound, IsStep};

use crate::arguments::clamped;
use crate::changes::change_all;
use crate::conditions::{level_condition, strip_limit};
use crate::edit_fails::EditFail;
use crate::leaves::Leaf;
use crate::vector_steps::{beta_fail, fission, fuse, join, reorder};
use beta_tree::Betas;
use clay_script::Command;
use row_core::Coeff;
use std::alloc::Global;
use suite_base::{Fail, Refusal, Where};

// The failure of command number `i` by an edit of forms.
fn edit_fail(i: u32, fail: EditFail) -> Fail
    ensures { result ≡ edit_fail_of i fail }
{
    match fail {
        EditFail::Memory => Fail::Memory,
        EditFail::Heavy => Fail::Refused(Refusal::Overflow(Where::Command, i)),
    }
}

/// Interchange, skew, shift or reverse, as command number `i`.
pub fn plain_step(
    alloc: Global,
    parameters: usize,
    i: u32,
    command: &Command,
    prefix: &[u32],
    betas: &Betas,
    leaves: &mut Vec<Leaf>,
) -> Result<(), Fail>
    requires plain { IsPlainCommand command.now }
    requires prefix { prefix.now ≡ prefix_in command.now }
    requires sound { IsSound parameters leaves.old.items }
    requires vectors { betas.now ≡ betas_of leaves.old.items }
    ensures ok { OnOk result (IsStep parameters i command.now leaves.old.items leaves.new.items betas.now) }
    ensures cause { IfErr result (HasCause (refusal_under parameters i command.now prefix.now leaves.old.items)) }
{
    let condition = level_condition(parameters, i, command, prefix, leaves.as_slice());
    if let Some(refusal) = condition {
        return Err(Fail::Refused(refusal));
    }
    match change_all(alloc, command, prefix, leaves) {
        Ok(()) => Ok(()),
        Err(fail) => Err(edit_fail(i, fail)),
    }
}

/// Stripmine or tile of level `k`, as command number `i`.
pub fn strip_step(
    alloc: Global,
    parameters: usize,
    i: u32,
    command: &Command,
    prefix: &[u32],
    k: Coeff,
    betas: &mut Betas,
    leaves: &mut Vec<Leaf>,
) -> Result<(), Fail>
    requires cut { IsCut command.now k }
    requires prefix { prefix.now ≡ prefix_in command.now }
    requires some { no_statement prefix.now (betas_of leaves.old.items) ≡ false }
    requires sound { IsSound parameters leaves.old.items }
    requires vectors { betas.old ≡ betas_of leaves.old.items }
    ensures ok { OnOk result (IsStep parameters i command.now leaves.old.items leaves.new.items betas.new) }
    ensures cause { IfErr result (HasCause (refusal_under parameters i command.now prefix.now leaves.old.items)) }
{
    let condition = level_condition(parameters, i, command, prefix, leaves.as_slice());
    if let Some(refusal) = condition {
        return Err(Fail::Refused(refusal));
    }
    let limit = strip_limit(i, prefix, leaves.as_slice());
    if let Some(refusal) = limit {
        return Err(Fail::Refused(refusal));
    }
    if let Err(fail) = change_all(alloc, command, prefix, leaves) {
        return Err(edit_fail(i, fail));
    }
    if let Err(fail) = betas.insert_level(prefix, clamped(k) as usize) {
        return Err(beta_fail(i, fail));
    }
    join(alloc, betas, leaves)?;
    Ok(())
}

// Fission, fuse or reorder of the vectors, as command number `i`.
fn edit_vectors(
    alloc: Global,
    i: u32,
    command: &Command,
    prefix: &[u32],
    betas: &mut Betas,
) -> Result<(), Fail>
    requires { IsVectorCommand command.now }
    ensures ok { OnOk result (vector_answer command.now prefix.now betas.old ≡ Ok betas.new) }
    ensures cause { IfErr result (HasCause (refused i (vector_answer command.now prefix.now betas.old))) }
{
    match command {
        Command::Fission(_, c) => fission(i, prefix, *c, betas),
        Command::Fuse(_) => fuse(i, prefix, betas),
        Command::Reorder(_, order) => reorder(alloc, i, prefix, order.as_slice(), betas),
        _ => unreachable!(),
    }
}

/// Fission, fuse or reorder, as command number `i`.
pub fn vector_step(
    alloc: Global,
    parameters: usize,
    i: u32,
    command: &Command,
    prefix: &[u32],
    betas: &mut Betas,
    leaves: &mut Vec<Leaf>,
) -> Result<(), Fail>
    requires of_vectors { IsVectorCommand command.now }
    requires prefix { prefix.now ≡ prefix_in command.now }
    requires vectors { betas.old ≡ betas_of leaves.old.items }
    ensures ok { OnOk result (IsStep parameters i command.now leaves.old.items leaves.new.items betas.new) }
    ensures cause { IfErr result (HasCause (refusal_under parameters i command.now prefix.now leaves.old.items)) }
{
    if let Err(fail) = edit_vectors(alloc, i, command, prefix, betas) {
        return Err(fail);
    }
    join(alloc, betas, leaves)?;
    Ok(())
}
