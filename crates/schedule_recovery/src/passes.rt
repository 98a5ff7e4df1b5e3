//! The fissions that leave each statement alone, and the fuses that join statements again: both are read off
//! dense vectors in beta order and how far neighbours agree.

ghost use Rattle.std.specs.Prelude.{◌≡◌, ◌++◌, ◌∷◌, ◌+◌, ◌-◌, ◌≤◌, ◌<◌, ◌^◌, length, OnOk, IfErr};
ghost use Rattle.suite_base.specs.Limits.{max_commands, max_levels, max_statements};
ghost use Rattle.chlore_recover.specs.Orders.{vectors_of};
ghost use Rattle.chlore_recover.specs.Strategy as strategy;
ghost use Rattle.schedule_recovery.specs.Agreements.{most_from};
ghost use Rattle.schedule_recovery.specs.Lengths.{IsTooLong};
ghost use Rattle.chlore_recover.specs.Passes as pass;

use crate::beta_orders::Placed;
use crate::lookups::agreement;
use crate::pushes::{push_fission, push_fuse};
use clay_script::Script;
use std::alloc::Global;
use suite_base::{Fail, MAX_COMMANDS, MAX_LEVELS, NoMemory, Refusal, Which};

/// Whether the script is no longer than a script may be: `Limit(Commands, 0)` where it is.
pub fn check_length(script: &Script) -> Result<(), Fail>
    ensures ok { OnOk result (length script.now ≤ max_commands) }
    ensures err { IfErr result (IsTooLong script.now) }
{
    if script.len() > MAX_COMMANDS {
        return Err(Fail::Refused(Refusal::Limit(Which::Commands, 0)));
    }
    Ok(())
}

// Appends the fission between a vector, which is in the loop with this number, and the next one.
fn push_part(
    alloc: Global,
    size: usize,
    child: u32,
    vector: &[u32],
    common: usize,
    script: &mut Script,
) -> Result<(), NoMemory>
    requires some { 0 < size }
    requires within { common ≤ length vector.now }
    ensures { OnOk result (script.new ≡ script.old ++ pass.as_fissions (pass.parted_between size child vector.now common)) }
{
    if common < size {
        return Ok(());
    }
    push_fission(alloc, &vector[..size - 1], child, script)
}

// The number of the next vector's loop.
fn next_child(size: usize, child: u32, common: usize) -> u32
    requires small { child < 2 ^ 32 - 1 }
    ensures answer { result ≡ pass.next_child size child common }
    ensures within { result ≤ child + 1 }
{
    if common >= size || common + 1 == size {
        return child + 1;
    }
    0
}

// Appends the fissions of loops of this length between neighbours.
fn push_parts(
    alloc: Global,
    size: usize,
    first: &[u32],
    rest: &[Placed],
    script: &mut Script,
) -> Result<(), NoMemory>
    requires some { 0 < size }
    requires few { length rest.now ≤ max_statements }
    ensures { OnOk result (script.new ≡ script.old ++ pass.as_fissions (pass.parted_loops size 0 first.now (vectors_of rest.now))) }
{
    let mut vector = first;
    let mut child = 0;
    for placed in rest {
        let next = placed.vector();
        let common = agreement(vector, next);
        push_part(alloc, size, child, vector, common, script)?;
        child = next_child(size, child, common);
        vector = next;
    }
    Ok(())
}

// In how many first entries two neighbours agree at most.
fn most_agreement(first: &[u32], rest: &[Placed]) -> usize
    ensures { result ≡ most_from 0 first.now (vectors_of rest.now) }
{
    let mut vector = first;
    let mut most = 0;
    for placed in rest {
        let next = placed.vector();
        most = agreement(vector, next).max(most);
        vector = next;
    }
    most
}

// Appends the fissions between neighbours, of the longest loops first.
fn push_all_parts(
    alloc: Global,
    first: &[u32],
    rest: &[Placed],
    script: &mut Script,
) -> Result<(), Fail>
    requires few { length rest.now ≤ max_statements }
    ensures ok { OnOk result (script.new ≡ script.old ++ pass.as_fissions (pass.all_parted max_levels first.now (vectors_of rest.now))) }
    ensures err { IfErr result (IsTooLong (script.old ++ pass.as_fissions (pass.all_parted max_levels first.now (vectors_of rest.now)))) }
{
    let mut size = most_agreement(first, rest).min(MAX_LEVELS);
    while size > 0 {
        push_parts(alloc, size, first, rest, script)?;
        check_length(script)?;
        size -= 1;
    }
    Ok(())
}

// Appends the fuse of the first entries of a vector, where it has them in common with the one before.
fn push_join(
    alloc: Global,
    size: usize,
    vector: &[u32],
    common: usize,
    script: &mut Script,
) -> Result<(), NoMemory>
    requires { common ≤ length vector.now }
    ensures { OnOk result (script.new ≡ script.old ++ pass.fused_between size common vector.now) }
{
    if common < size {
        return Ok(());
    }
    push_fuse(alloc, &vector[..size], script)
}

// Appends the fuses of so many entries between neighbours.
fn push_joins(
    alloc: Global,
    size: usize,
    first: &[u32],
    rest: &[Placed],
    script: &mut Script,
) -> Result<(), NoMemory>
    ensures { OnOk result (script.new ≡ script.old ++ strategy.fuses_of_length size first.now (vectors_of rest.now)) }
{
    let mut vector = first;
    for placed in rest {
        let next = placed.vector();
        let common = agreement(vector, next);
        push_join(alloc, size, next, common, script)?;
        vector = next;
    }
    Ok(())
}

// Appends the fuses between neighbours, of one entry first.
fn push_all_joins(
    alloc: Global,
    first: &[u32],
    rest: &[Placed],
    script: &mut Script,
) -> Result<(), Fail>
    requires { length script.old ≤ max_commands }
    ensures ok { OnOk result (script.new ≡ script.old ++ strategy.fuses (first.now ∷ vectors_of rest.now)) }
    ensures err { IfErr result (IsTooLong (script.old ++ strategy.fuses (first.now ∷ vectors_of rest.now))) }
    ensures short { OnOk result (length script.new ≤ max_commands) }
{
    let most = most_agreement(first, rest);
    for k in 0..MAX_LEVELS {
        if k >= most {
            return Ok(());
        }
        push_joins(alloc, k + 1, first, rest, script)?;
        check_length(script)?;
    }
    Ok(())
}

/// Appends the fissions that leave each of these statements alone.
pub fn push_fissions(alloc: Global, original: &[Placed], script: &mut Script) -> Result<(), Fail>
    requires { length original.now ≤ max_statements }
    ensures ok { OnOk result (script.new ≡ script.old ++ pass.fissions_of (vectors_of original.now)) }
    ensures err { IfErr result (IsTooLong (script.old ++ pass.fissions_of (vectors_of original.now))) }
{
    match original {
        [] => Ok(()),
        [first, rest @ ..] => push_all_parts(alloc, first.vector(), rest, script),
    }
}

/// Appends the fuses that join statements that stand alone in the target's loops.
pub fn push_fuses(alloc: Global, target: &[Placed], script: &mut Script) -> Result<(), Fail>
    requires { length script.old ≤ max_commands }
    ensures ok { OnOk result (script.new ≡ script.old ++ strategy.fuses (vectors_of target.now)) }
    ensures err { IfErr result (IsTooLong (script.old ++ strategy.fuses (vectors_of target.now))) }
    ensures short { OnOk result (length script.new ≤ max_commands) }
{
    match target {
        [] => Ok(()),
        [first, rest @ ..] => push_all_joins(alloc, first.vector(), rest, script),
    }
}
