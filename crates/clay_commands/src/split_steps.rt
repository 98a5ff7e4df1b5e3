//! The command `iss` on the leaves of a draft.

ghost use Rattle.std.specs.Prelude.{◌≡◌, ◌<◌, ◌≤◌, ◌^◌, ◌+◌, false, length, unsigned_abs, nat_lt, IfErr, OnOk};
ghost use Rattle.beta_tree.specs.Vectors.{no_statement};
ghost use Rattle.scop_core.specs.Assembly.{HasCause};
ghost use Rattle.clay_commands.specs.Arguments.{prefix_in};
ghost use Rattle.clay_commands.specs.Drafts.{betas_of};
ghost use Rattle.clay_commands.specs.Steps.{IsSplitBy, refusal_under};
ghost use Rattle.clay_commands.specs.Soundness.{IsSound, IsStep};

use crate::conditions::{level_condition, split_limit};
use crate::leaf_splits::{place, split_at};
use crate::leaves::Leaf;
use crate::vector_steps::{beta_fail, join};
use beta_tree::Betas;
use clay_script::Command;
use row_core::Coeff;
use std::alloc::Global;
use suite_base::{Fail, Refusal, Where};

// Whether a constant has room for one more.
fn is_light(constant: Coeff) -> bool
    ensures { result ≡ nat_lt (unsigned_abs constant + 1) (2 ^ 127) }
{
    constant.value().unsigned_abs() + 1 < 1 << 127
}

/// `iss` with these coefficients, as command number `i`.
pub fn split_step(
    alloc: Global,
    parameters: usize,
    i: u32,
    command: &Command,
    prefix: &[u32],
    by: (&[Coeff], &[Coeff], Coeff),
    betas: &mut Betas,
    leaves: &mut Vec<Leaf>,
) -> Result<(), Fail>
    requires split { IsSplitBy command.now by.0.now by.1.now by.2 }
    requires prefix { prefix.now ≡ prefix_in command.now }
    requires some { no_statement prefix.now (betas_of leaves.old.items) ≡ false }
    requires sound { IsSound parameters leaves.old.items }
    requires vectors { betas.old ≡ betas_of leaves.old.items }
    ensures ok { OnOk result (IsStep parameters i command.now leaves.old.items leaves.new.items betas.new) }
    ensures cause { IfErr result (HasCause (refusal_under parameters i command.now prefix.now leaves.old.items)) }
{
    let condition = level_condition(parameters, i, command, prefix, leaves.as_slice());
    if let Some(refusal) = condition {
        return Err(Fail::Refused(refusal));
    }
    let limit = split_limit(i, command, prefix, leaves.as_slice());
    if let Some(refusal) = limit {
        return Err(Fail::Refused(refusal));
    }
    if !is_light(by.2) {
        return Err(Fail::Refused(Refusal::Overflow(Where::Command, i)));
    }
    let _tree = betas.len();
    let j = place(prefix, leaves.as_slice());
    split_at(alloc, j, by.0, by.1, by.2, leaves)?;
    if let Err(fail) = betas.split_leaf(prefix) {
        return Err(beta_fail(i, fail));
    }
    join(alloc, betas, leaves)?;
    Ok(())
}
