//! A script on the leaves of a draft.

ghost use Rattle.std.specs.Prelude.{◌≡◌, ◌<◌, ◌^◌, None, length, IfErr, OnOk};
ghost use Rattle.scop_core.specs.Assembly.{HasCause};
ghost use Rattle.clay_commands.specs.Drafts.{betas_of, drafts_after};
ghost use Rattle.clay_commands.specs.Refusals.{first_refusal, refusal_at};
ghost use Rattle.clay_commands.specs.Soundness.{IsSound, IsCommandStep, SizesFit};

use crate::command_steps::command_step;
use crate::leaves::Leaf;
use beta_tree::Betas;
use clay_script::Command;
use std::alloc::Global;
use suite_base::Fail;

// Reads the size of a cut, which is a coefficient.
fn read_size(command: &Command)
    ensures { SizesFit command.now }
{
    match command {
        Command::Stripmine(_, _, size) => {
            let _in_range = size.value();
        }
        Command::Tile(_, _, size, _) => {
            let _in_range = size.value();
        }
        _ => {}
    }
}

// One command of a script, which leaves the draft sound.
fn sound_step(
    alloc: Global,
    parameters: usize,
    i: u32,
    command: &Command,
    betas: &mut Betas,
    leaves: &mut Vec<Leaf>,
) -> Result<(), Fail>
    requires sound { IsSound parameters leaves.old.items }
    requires vectors { betas.old ≡ betas_of leaves.old.items }
    ensures ok { OnOk result (IsCommandStep parameters i command.now leaves.old.items leaves.new.items betas.new) }
    ensures sound { OnOk result (IsSound parameters leaves.new.items) }
    ensures cause { IfErr result (HasCause (refusal_at parameters i command.now leaves.old.items)) }
{
    let _tree = betas.len();
    read_size(command);
    match command_step(alloc, parameters, i, command, betas, leaves) {
        Ok(()) => Ok(()),
        Err(fail) => Err(fail),
    }
}

/// The commands of a script in turn.
pub fn run(
    alloc: Global,
    parameters: usize,
    script: &[Command],
    betas: &mut Betas,
    leaves: &mut Vec<Leaf>,
) -> Result<(), Fail>
    requires few { length script.now < 2 ^ 32 }
    requires sound { IsSound parameters leaves.old.items }
    requires vectors { betas.old ≡ betas_of leaves.old.items }
    ensures none { OnOk result (first_refusal parameters 1 script.now leaves.old.items ≡ None) }
    ensures leaves { OnOk result (leaves.new.items ≡ drafts_after script.now leaves.old.items) }
    ensures sound { OnOk result (IsSound parameters leaves.new.items) }
    ensures vectors { OnOk result (betas.new ≡ betas_of leaves.new.items) }
    ensures cause { IfErr result (HasCause (first_refusal parameters 1 script.now leaves.old.items)) }
{
    for k in 0..script.len() {
        if let Err(fail) = sound_step(alloc, parameters, k as u32 + 1, &script[k], betas, leaves) {
            return Err(fail);
        }
    }
    Ok(())
}
