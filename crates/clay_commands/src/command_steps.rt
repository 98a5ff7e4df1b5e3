//! Any command on the leaves of a draft.

ghost use Rattle.std.specs.Prelude.{◌≡◌, ◌<◌, ◌^◌, false, IfErr, OnOk};
ghost use Rattle.beta_tree.specs.Vectors.{no_statement};
ghost use Rattle.scop_core.specs.Assembly.{HasCause};
ghost use Rattle.clay_script.specs.Commands.{prefix_of};
ghost use Rattle.clay_commands.specs.Arguments.{prefix_in};
ghost use Rattle.clay_commands.specs.Drafts.{betas_of, draft_after};
ghost use Rattle.clay_commands.specs.Refusals.{refusal_at};
ghost use Rattle.clay_commands.specs.Steps.{refusal_under};
ghost use Rattle.clay_commands.specs.Soundness.{IsSound, IsStep, IsCommandStep};

use crate::arguments::betas_from;
use crate::conditions::has_statement;
use crate::leaves::Leaf;
use crate::split_steps::split_step;
use crate::steps::{plain_step, strip_step, vector_step};
use beta_tree::Betas;
use clay_script::{Command, Vector};
use std::alloc::Global;
use suite_base::{Fail, Refusal};

// The beta prefix of a command.
fn prefix_of_command(command: &Command) -> &Vector
    ensures { result.now ≡ prefix_of command.now }
{
    match command {
        Command::Fission(prefix, _) => prefix,
        Command::Fuse(prefix) => prefix,
        Command::Reorder(prefix, _) => prefix,
        Command::Interchange(prefix, _, _) => prefix,
        Command::Skew(prefix, _, _, _) => prefix,
        Command::Shift(prefix, _, _, _) => prefix,
        Command::Reverse(prefix, _) => prefix,
        Command::Stripmine(prefix, _, _) => prefix,
        Command::Tile(prefix, _, _, _) => prefix,
        Command::Iss(prefix, _, _, _) => prefix,
    }
}

// Command number `i`, under whose prefix some statement is.
fn step_under(
    alloc: Global,
    parameters: usize,
    i: u32,
    command: &Command,
    prefix: &[u32],
    betas: &mut Betas,
    leaves: &mut Vec<Leaf>,
) -> Result<(), Fail>
    requires prefix { prefix.now ≡ prefix_in command.now }
    requires some { no_statement prefix.now (betas_of leaves.old.items) ≡ false }
    requires sound { IsSound parameters leaves.old.items }
    requires vectors { betas.old ≡ betas_of leaves.old.items }
    ensures ok { OnOk result (IsStep parameters i command.now leaves.old.items leaves.new.items betas.new) }
    ensures cause { IfErr result (HasCause (refusal_under parameters i command.now prefix.now leaves.old.items)) }
{
    match command {
        Command::Fission(_, _) | Command::Fuse(_) | Command::Reorder(_, _) => {
            vector_step(alloc, parameters, i, command, prefix, betas, leaves)
        }
        Command::Stripmine(_, k, _) => {
            strip_step(alloc, parameters, i, command, prefix, *k, betas, leaves)
        }
        Command::Tile(_, k, _, _) => {
            strip_step(alloc, parameters, i, command, prefix, *k, betas, leaves)
        }
        Command::Iss(_, xs, ns, constant) => {
            let by = (xs.as_slice(), ns.as_slice(), *constant);
            split_step(alloc, parameters, i, command, prefix, by, betas, leaves)
        }
        _ => plain_step(alloc, parameters, i, command, prefix, betas, leaves),
    }
}

/// Command number `i` of a script.
pub fn command_step(
    alloc: Global,
    parameters: usize,
    i: u32,
    command: &Command,
    betas: &mut Betas,
    leaves: &mut Vec<Leaf>,
) -> Result<(), Fail>
    requires sound { IsSound parameters leaves.old.items }
    requires vectors { betas.old ≡ betas_of leaves.old.items }
    ensures ok { OnOk result (IsCommandStep parameters i command.now leaves.old.items leaves.new.items betas.new) }
    ensures cause { IfErr result (HasCause (refusal_at parameters i command.now leaves.old.items)) }
{
    let _tree = betas.len();
    let Some(prefix) = betas_from(alloc, prefix_of_command(command).as_slice())? else {
        return Err(Fail::Refused(Refusal::NoBeta(i)));
    };
    if !has_statement(prefix.as_slice(), leaves.as_slice()) {
        return Err(Fail::Refused(Refusal::NoBeta(i)));
    }
    match step_under(
        alloc,
        parameters,
        i,
        command,
        prefix.as_slice(),
        betas,
        leaves,
    ) {
        Ok(()) => Ok(()),
        Err(fail) => Err(fail),
    }
}
