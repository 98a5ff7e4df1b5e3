//! The decision of all violations, in their order.

ghost use Rattle.std.specs.Prelude.{◌≡◌, ◌+◌, ◌<◌, ◌≤◌, ◌^◌, length, IfOk};
ghost use Rattle.suite_base.specs.Limits.{max_systems};
ghost use Rattle.scop_core.specs.Sequences.{In};
ghost use Rattle.dependence_systems.specs.Systems.{system_weight};
ghost use Rattle.legality.specs.Answers.{IsAnswer, IsKnown, IsSaid};
ghost use Rattle.legality.specs.Edits.{IsEdit, KeepsInstances};
ghost use Rattle.legality.specs.Memories.{KeepsMemory};
ghost use Rattle.legality.specs.Violations.{edit_of, dependences, new_levels, violations_of, violations, shared_pairing, shared_system};

use crate::deciding::{decide_violation, is_empty};
use crate::legal::Legal;
use crate::levels::levels_of;
use crate::systems::shared_part;
use clay_commands::Edited;
use dependence_systems::lookups::numbered;
use dependence_systems::{Dep, deps};
use elim_core::{Reduced, reduce};
use relation_core::Part;
use row_core::{RowFail, SparseRow};
use scop_core::Scop;
use std::alloc::Global;
use suite_base::{Fail, List, NoMemory, Refusal, Where};

// The number after these many.
fn number_after(number: u32, count: usize) -> u32
    requires { number + count < 2 ^ 32 }
    ensures { result ≡ number + count }
{
    number + count as u32
}

// Decides the violations of one dependence, of which `part` is the system over the floors of the new
// schedules, which has no rational point where `empty`; there are `before` violations before them.
fn decide_levels(
    alloc: Global,
    scop: &Scop,
    edited: &Edited,
    dep: &Dep,
    shared: &Reduced<SparseRow>,
    empty: bool,
    part: &mut Part,
    levels: &[usize],
    before: u32,
) -> Result<Legal, Fail>
    requires edit { IsEdit (edit_of scop.now edited.now) }
    requires listed { In dep.now (dependences (edit_of scop.now edited.now)) }
    requires shared { part.old ≡ shared_system (edit_of scop.now edited.now) dep.now }
    requires reduced { shared.now ≡ shared_system (edit_of scop.now edited.now) dep.now }
    requires known { IsKnown (shared_system (edit_of scop.now edited.now) dep.now) empty }
    requires light { system_weight (shared_pairing (edit_of scop.now edited.now) dep.now) dep.now.level < 2 ^ 127 }
    requires levels { levels.now ≡ new_levels (edit_of scop.now edited.now) dep.now }
    requires room { before + length levels.now < 2 ^ 32 }
    ensures { IsSaid (edit_of scop.now edited.now) (before + 1) (violations_of (edit_of scop.now edited.now) dep.now) result }
{
    let mut number = before;
    for level in levels {
        number = number_after(number, 1);
        if decide_violation(
            alloc, scop, edited, dep, shared, empty, part, *level, number,
        )? {
            return Ok(Legal::Illegal(number));
        }
    }
    Ok(Legal::Yes)
}

// Decides the violations of one dependence at these levels; there are `before` violations before them.
// A dependence without levels is passed over: its rows are not even built.
fn decide_entry(
    alloc: Global,
    scop: &Scop,
    edited: &Edited,
    dep: &Dep,
    levels: &[usize],
    before: u32,
) -> Result<Legal, Fail>
    requires edit { IsEdit (edit_of scop.now edited.now) }
    requires listed { In dep.now (dependences (edit_of scop.now edited.now)) }
    requires levels { levels.now ≡ new_levels (edit_of scop.now edited.now) dep.now }
    requires room { before + length levels.now < 2 ^ 32 }
    ensures { IsSaid (edit_of scop.now edited.now) (before + 1) (violations_of (edit_of scop.now edited.now) dep.now) result }
{
    if levels.len() == 0 {
        return Ok(Legal::Yes);
    }
    let first = number_after(before, 1);
    match shared_part(alloc, scop, edited, dep) {
        Ok(part) => {
            let mut part = part;
            let shared = reduce::<SparseRow>(alloc, &part)?;
            let empty = is_empty(alloc, &shared, &part, levels.len())?;
            decide_levels(
                alloc, scop, edited, dep, &shared, empty, &mut part, levels, before,
            )
        }
        Err(RowFail::Memory) => Err(Fail::Memory),
        Err(RowFail::Overflow) => Err(Fail::Refused(Refusal::Overflow(Where::System, first))),
    }
}

// The levels of the violations of a dependence.
fn entry_levels(
    alloc: Global,
    scop: &Scop,
    edited: &Edited,
    dep: &Dep,
) -> Result<List<usize>, NoMemory>
    requires edit { IsEdit (edit_of scop.now edited.now) }
    requires listed { In dep.now (dependences (edit_of scop.now edited.now)) }
    ensures { IfOk result (λ levels. levels ≡ new_levels (edit_of scop.now edited.now) dep.now) }
{
    let statements = edited.scop.statements();
    let source = numbered(statements, dep.source);
    let target = numbered(statements, dep.target);
    levels_of(
        alloc,
        target.schedule.betas.as_slice(),
        source.schedule.betas.as_slice(),
    )
}

// Decides the violations of all dependences in this list.
fn decide_entries(alloc: Global, scop: &Scop, edited: &Edited, list: &[Dep]) -> Result<Legal, Fail>
    requires edit { IsEdit (edit_of scop.now edited.now) }
    requires listed { list.now ≡ dependences (edit_of scop.now edited.now) }
    requires few { length list.now ≤ max_systems }
    ensures { IsSaid (edit_of scop.now edited.now) 1 (violations (edit_of scop.now edited.now)) result }
{
    let mut number = 0;
    for dep in list {
        let levels = entry_levels(alloc, scop, edited, dep)?;
        let said = decide_entry(alloc, scop, edited, dep, levels.as_slice(), number)?;
        match said {
            Legal::Yes => {}
            Legal::Illegal(k) => return Ok(Legal::Illegal(k)),
        }
        number = number_after(number, levels.len());
    }
    Ok(Legal::Yes)
}

/// Decides whether an edit keeps the order of all pairs of instances that touch, with the answers of `check`. At `Yes`,
/// where the edit keeps the instances, each run of the SCoP in context is joined by a run of the edited one with the same
/// final memory.
pub fn check_edit(alloc: Global, scop: &Scop, edited: &Edited) -> Result<Legal, Fail>
    requires edit { IsEdit (edit_of scop.now edited.now) }
    ensures answer { IsAnswer (edit_of scop.now edited.now) result }
    ensures memory { IfOk result (λ legal. legal ≡ Legal.Yes → KeepsInstances (edit_of scop.now edited.now) → KeepsMemory scop.now edited.now.scop) }
{
    let list = deps(alloc, scop, &edited.scop, &edited.of)?;
    decide_entries(alloc, scop, edited, list.as_slice())
}
