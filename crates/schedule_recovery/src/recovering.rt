//! The script that turns the original's schedules into the target's.

ghost use Rattle.std.specs.Prelude.{◌≡◌, ◌++◌, ◌≤◌, length, None, OnOk, IfOk, IfErr};
ghost use Rattle.suite_base.specs.Limits.{max_commands, max_statements};
ghost use Rattle.scop_core.specs.Assembly.{HasCause};
ghost use Rattle.scop_core.specs.Validity.{IsValid};
ghost use Rattle.chlore_recover.specs.Refusals.{recovery_refusal};
ghost use Rattle.chlore_recover.specs.Strategy as strategy;
ghost use Rattle.chlore_recover.specs.Strategy.{Recovers};
ghost use Rattle.schedule_recovery.specs.Lengths.{AllEndApart, IsTooLong};

use crate::beta_orders::{Placed, in_beta_order};
use crate::conditions::pair_refusal;
use crate::level_scripts::push_level_script;
use crate::orders::push_order;
use crate::passes::{check_length, push_fissions, push_fuses};
use clay_script::Script;
use scop_core::{Affine, Scop};
use std::alloc::Global;
use suite_base::{Fail, NoMemory};

// The levels of the statement at this place; none where there is no such statement.
fn levels_at(scop: &Scop, place: usize) -> &[Affine]
    ensures { result.now ≡ strategy.levels_in scop.now place }
{
    match scop.statement(place) {
        Some(statement) => statement.schedule.levels.as_slice(),
        None => &[],
    }
}

// Appends the commands for the levels of these statements, which stand alone in the outer loops in turn.
fn push_levels(
    alloc: Global,
    original: &Scop,
    target: &Scop,
    placed: &[Placed],
    script: &mut Script,
) -> Result<(), Fail>
    requires apart { AllEndApart target.now }
    requires few { length placed.now ≤ max_statements }
    ensures ok { OnOk result (script.new ≡ script.old ++ strategy.all_levels original.now target.now 0 placed.now) }
    ensures err { IfErr result (IsTooLong (script.old ++ strategy.all_levels original.now target.now 0 placed.now)) }
{
    for k in 0..placed.len() {
        let place = placed[k].place();
        push_level_script(
            alloc,
            k as u32,
            levels_at(original, place),
            levels_at(target, place),
            script,
        )?;
        check_length(script)?;
    }
    Ok(())
}

// The script, of the statements in both beta orders.
fn joined_script(
    alloc: Global,
    original: &Scop,
    target: &Scop,
    from: &[Placed],
    to: &[Placed],
) -> Result<Script, Fail>
    requires valid { IsValid original.now }
    requires apart { AllEndApart target.now }
    requires from { from.now ≡ strategy.in_beta_order original.now }
    requires to { to.now ≡ strategy.in_beta_order target.now }
    requires few { length from.now ≤ max_statements }
    ensures ok { IfOk result (λ script. script ≡ strategy.strategy original.now target.now) }
    ensures short { IfOk result (λ script. length script ≤ max_commands) }
    ensures err { IfErr result (IsTooLong (strategy.strategy original.now target.now)) }
{
    let mut script = Script::new(alloc);
    push_fissions(alloc, from, &mut script)?;
    push_levels(alloc, original, target, from, &mut script)?;
    push_order(alloc, from, to, &mut script)?;
    check_length(&script)?;
    push_fuses(alloc, to, &mut script)?;
    Ok(script)
}

// The script, where the target's levels can be recovered.
fn found_script(alloc: Global, original: &Scop, target: &Scop) -> Result<Script, Fail>
    requires valid { IsValid original.now }
    requires apart { AllEndApart target.now }
    ensures ok { IfOk result (λ script. script ≡ strategy.strategy original.now target.now) }
    ensures short { IfOk result (λ script. length script ≤ max_commands) }
    ensures err { IfErr result (IsTooLong (strategy.strategy original.now target.now)) }
{
    let from = in_beta_order(alloc, original)?;
    let to = in_beta_order(alloc, target)?;
    joined_script(alloc, original, target, from.as_slice(), to.as_slice())
}

// Every Scop is valid: a fact for contracts.
fn scop_is_valid(scop: &Scop)
    ensures { IsValid scop.now }
{
    let _count = scop.statement_count();
}

/// The script that turns the schedules of the statements of `original` into those of the statements with
/// the same numbers of `target`. All else of the two may differ.
///
/// Refusals in this order, each of all statements before the next: `Different(0)` where the numbers of
/// statements or parameters differ, `Different(k)` where k is the least statement with another number of
/// iterators, `NotClanForm(k)` where k is the least statement of the original that is not in Clan's form,
/// `NotRecoverable(k)` where k is the least statement of the target that is not recoverable,
/// `Limit(Commands, 0)` where the script has more than 4,096 commands.
pub fn recover(alloc: Global, original: &Scop, target: &Scop) -> Result<Script, Fail>
    ensures none { OnOk result (recovery_refusal original.now target.now ≡ None) }
    ensures script { IfOk result (λ script. script ≡ strategy.strategy original.now target.now) }
    ensures recovers { IfOk result (Recovers original.now target.now) }
    ensures cause { IfErr result (HasCause (recovery_refusal original.now target.now)) }
{
    scop_is_valid(original);
    scop_is_valid(target);
    match pair_refusal(alloc, original, target) {
        Err(NoMemory) => Err(Fail::Memory),
        Ok(Some(refusal)) => Err(Fail::Refused(refusal)),
        Ok(None) => found_script(alloc, original, target),
    }
}
