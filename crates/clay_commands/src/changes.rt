//! The edit of all statements under a prefix by a command that changes forms.

ghost use Rattle.std.specs.Prelude.{◌≡◌, ◌<◌, ◌^◌, map, true, IfErr, OnOk};
ghost use Rattle.std.specs.Option.{option_copied};
ghost use Rattle.beta_tree.specs.Vectors.{after};
ghost use Rattle.clay_commands.specs.Drafts.{is_under as has_prefix, forms_after, scheduled};
ghost use Rattle.clay_commands.specs.Refusals.{statement_weight, most_under};
ghost use Rattle.clay_commands.specs.Steps.{AllUnder, IsChangeable, IsHeavy, changed, counted};

use crate::arguments::place_of;
use crate::edit_fails::EditFail;
use crate::form_edits::{interchange, reverse, shift, skew, strip};
use crate::leaves::Leaf;
use clay_script::Command;
use scop_core::Statement;
use std::alloc::Global;

/// What follows `prefix` in `vector`; `None` where `vector` doesn't begin with it.
pub fn what_follows<'a>(prefix: &[u32], vector: &'a [u32]) -> Option<&'a [u32]>
    ensures { option_copied result ≡ after prefix.now vector.now }
{
    vector.strip_prefix(prefix)
}

/// Whether `vector` begins with `prefix`.
pub fn is_under(prefix: &[u32], vector: &[u32]) -> bool
    ensures { result ≡ has_prefix prefix.now vector.now }
{
    what_follows(prefix, vector).is_some()
}

// Changes floors and levels of a statement as the command does.
fn change(alloc: Global, command: &Command, statement: &mut Statement) -> Result<(), EditFail>
    requires { IsChangeable command.now statement.old }
    ensures ok { OnOk result (statement.new ≡ scheduled statement.old (forms_after command.now statement.old.schedule)) }
    ensures light { OnOk result (statement_weight command.now statement.old < 2 ^ 127) }
    ensures heavy { IfErr result (IsHeavy (statement_weight command.now statement.old)) }
{
    let schedule = &mut statement.schedule;
    let count = schedule.levels.len();
    match command {
        Command::Interchange(_, k, l) => {
            let k = place_of(*k, count);
            let l = place_of(*l, count);
            interchange(alloc, &mut schedule.levels, k, l)?;
            Ok(())
        }
        Command::Skew(_, k, l, f) => {
            let k = place_of(*k, count);
            let l = place_of(*l, count);
            skew(alloc, &mut schedule.levels, k, l, *f)
        }
        Command::Shift(_, k, parameters, constant) => {
            let k = place_of(*k, count);
            shift(
                alloc,
                &mut schedule.levels,
                k,
                parameters.as_slice(),
                *constant,
            )
        }
        Command::Reverse(_, k) => {
            let k = place_of(*k, count);
            reverse(alloc, &mut schedule.levels, k)?;
            Ok(())
        }
        Command::Stripmine(_, k, size) => {
            let k = place_of(*k, count);
            strip(alloc, schedule, k, *size, k)
        }
        Command::Tile(_, k, size, t) => {
            let t = place_of(*t, count);
            let k = place_of(*k, count);
            strip(alloc, schedule, k, *size, t)
        }
        _ => unreachable!(),
    }
}

// Changes the statement of a leaf, where it is under the prefix.
fn change_leaf(
    alloc: Global,
    command: &Command,
    prefix: &[u32],
    leaf: &mut Leaf,
) -> Result<(), EditFail>
    requires { (has_prefix prefix.now leaf.old.beta ≡ true) → IsChangeable command.now leaf.old.statement }
    ensures ok { OnOk result (leaf.new ≡ changed command.now prefix.now leaf.old) }
    ensures light { OnOk result (counted prefix.now (statement_weight command.now) leaf.old < 2 ^ 127) }
    ensures heavy { IfErr result (IsHeavy (counted prefix.now (statement_weight command.now) leaf.old)) }
{
    if is_under(prefix, leaf.beta.as_slice()) {
        change(alloc, command, &mut leaf.statement)
    } else {
        Ok(())
    }
}

/// Changes the statements under the prefix.
pub fn change_all(
    alloc: Global,
    command: &Command,
    prefix: &[u32],
    leaves: &mut Vec<Leaf>,
) -> Result<(), EditFail>
    requires { AllUnder prefix.now (IsChangeable command.now) leaves.old.items }
    ensures ok { OnOk result (leaves.new.items ≡ map (changed command.now prefix.now) leaves.old.items) }
    ensures light { OnOk result (most_under prefix.now (statement_weight command.now) leaves.old.items < 2 ^ 127) }
    ensures heavy { IfErr result (IsHeavy (most_under prefix.now (statement_weight command.now) leaves.old.items)) }
{
    for k in 0..leaves.len() {
        if let Err(fail) = change_leaf(alloc, command, prefix, &mut leaves[k]) {
            return Err(fail);
        }
    }
    Ok(())
}
