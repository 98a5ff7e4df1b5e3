//! The decision of one violation.

ghost use Rattle.std.specs.Prelude.{◌≡◌, ◌<◌, ◌^◌, OnOk, IfOk};
ghost use Rattle.scop_core.specs.LevelOrder.{IsLevel};
ghost use Rattle.scop_core.specs.Sequences.{In};
ghost use Rattle.dependence_systems.specs.Systems.{system_weight};
ghost use Rattle.elim_core.specs.Reductions.{BeginsWith};
ghost use Rattle.legality.specs.Answers.{IsDecided, IsKnown, IsTried};
ghost use Rattle.legality.specs.Edits.{IsEdit};
ghost use Rattle.legality.specs.Violations.{edit_of, dependences, new_schedule, shared_pairing, shared_system};

use crate::systems::push_violation;
use clay_commands::Edited;
use dependence_systems::Dep;
use elim_core::{ElimFail, Reduced, Verdict, decide_with};
use relation_core::Part;
use row_core::{RowFail, SparseRow};
use scop_core::Scop;
use std::alloc::Global;
use suite_base::{Fail, NoMemory, Refusal, Where};

/// Whether the rows that `count` systems share are found to have no rational point, so that none of
/// the systems has one. For fewer than three systems the question costs what it saves, and a limit
/// that is met on the shared rows alone leaves it open: both answer false.
pub fn is_empty(
    alloc: Global,
    shared: &Reduced<SparseRow>,
    part: &Part,
    count: usize,
) -> Result<bool, NoMemory>
    requires { shared.now ≡ part.now }
    ensures { IfOk result (λ empty. IsKnown part.now empty) }
{
    if count < 3 {
        return Ok(false);
    }
    match decide_with::<SparseRow>(alloc, shared, part) {
        Ok(Verdict::Empty(_)) => Ok(true),
        Ok(Verdict::HasPoint) => Ok(false),
        Err(ElimFail::Memory) => Err(NoMemory),
        Err(_) => Ok(false),
    }
}

/// Whether a system that begins with the rows of a reduced one has a rational point; refusals carry
/// `number`. Where `empty`, the reduced one has none, and so the system is not decided.
pub fn has_point(
    alloc: Global,
    shared: &Reduced<SparseRow>,
    empty: bool,
    system: &Part,
    number: u32,
) -> Result<bool, Fail>
    requires begins { BeginsWith system.now shared.now }
    requires known { IsKnown shared.now empty }
    ensures { IsDecided system.now number result }
{
    if empty {
        return Ok(false);
    }
    match decide_with::<SparseRow>(alloc, shared, system) {
        Ok(Verdict::HasPoint) => Ok(true),
        Ok(Verdict::Empty(_)) => Ok(false),
        Err(ElimFail::Memory) => Err(Fail::Memory),
        Err(ElimFail::Overflow) => Err(Fail::Refused(Refusal::Overflow(Where::System, number))),
        Err(ElimFail::TooManyRows) => Err(Fail::Refused(Refusal::TooManyRows(number))),
    }
}

/// Whether the system of the violation of `dep` at `level`, which is number `number`, has a rational
/// point. `part` is the system of the dependence over the floors of the new schedules, and is so
/// again afterwards; `shared` is that system reduced, which has no rational point where `empty`.
pub fn decide_violation(
    alloc: Global,
    scop: &Scop,
    edited: &Edited,
    dep: &Dep,
    shared: &Reduced<SparseRow>,
    empty: bool,
    part: &mut Part,
    level: usize,
    number: u32,
) -> Result<bool, Fail>
    requires edit { IsEdit (edit_of scop.now edited.now) }
    requires listed { In dep.now (dependences (edit_of scop.now edited.now)) }
    requires shared { part.old ≡ shared_system (edit_of scop.now edited.now) dep.now }
    requires reduced { shared.now ≡ shared_system (edit_of scop.now edited.now) dep.now }
    requires known { IsKnown (shared_system (edit_of scop.now edited.now) dep.now) empty }
    requires light { system_weight (shared_pairing (edit_of scop.now edited.now) dep.now) dep.now.level < 2 ^ 127 }
    requires level { IsLevel (new_schedule (edit_of scop.now edited.now) dep.now.target).betas (new_schedule (edit_of scop.now edited.now) dep.now.source).betas level }
    ensures kept { OnOk result (part.new ≡ part.old) }
    ensures tried { IsTried (edit_of scop.now edited.now) (record { entry = dep.now; level = level }) number result }
{
    let count = part.row_count();
    match push_violation(scop, edited, dep, part, level) {
        Ok(()) => {}
        Err(RowFail::Memory) => return Err(Fail::Memory),
        Err(RowFail::Overflow) => {
            return Err(Fail::Refused(Refusal::Overflow(Where::System, number)));
        }
    }
    let point = has_point(alloc, shared, empty, part, number)?;
    part.truncate(count);
    Ok(point)
}
