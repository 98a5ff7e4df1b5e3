//! The rows that the systems of a dependence's violations share.

ghost use Rattle.std.specs.Prelude.{◌≡◌, ◌≤◌, ◌<◌, ◌^◌, IsSome, IsSomeAnd, OnOk, IfOk, IfErr};
ghost use Rattle.scop_core.specs.Sequences.{In};
ghost use Rattle.dependence_systems.specs.Sides.{member};
ghost use Rattle.dependence_systems.specs.Lookups.{HasSide};
ghost use Rattle.dependence_systems.specs.Systems.{system_weight};
ghost use Rattle.legality.specs.Edits.{IsEdit};
ghost use Rattle.legality.specs.Mixed.{mixed_at};
ghost use Rattle.legality.specs.Reversals.{reversed_weight};
ghost use Rattle.legality.specs.Violations.{edit_of, dependences, new_schedule, shared_pairing, shared_system, violation_system};
ghost use Rattle.scop_core.specs.LevelOrder.{IsLevel};

use crate::mixing::mixed_schedule;
use crate::reversing::push_reversed;
use clay_commands::Edited;
use dependence_systems::Dep;
use dependence_systems::building::{system_between, widths_between};
use dependence_systems::lookups::{numbered, original_of};
use relation_core::Part;
use row_core::RowFail;
use scop_core::{Schedule, Scop};
use std::alloc::Global;
use suite_base::NoMemory;

// The order of the original of statement number `k` over the floors of the statement.
fn order_of(alloc: Global, scop: &Scop, edited: &Edited, k: u32) -> Result<Schedule, NoMemory>
    requires statement { IsSome (member edited.now.scop.statements k) }
    requires original { IsSomeAnd (member edited.now.of k) (λ j. IsSome (member scop.now.statements j)) }
    ensures { IfOk result (λ made. made ≡ mixed_at scop.now.statements edited.now.scop.statements edited.now.of k) }
{
    let statement = numbered(edited.scop.statements(), k);
    let original = numbered(scop.statements(), original_of(&edited.of, k));
    mixed_schedule(alloc, &original.schedule, &statement.schedule)
}

/// The system of a dependence over the floors of the new schedules, which the systems of its
/// violations begin with. Overflow comes exactly where an entry of its rows has summands whose
/// absolute values sum above 2^127 - 1.
pub fn shared_part(alloc: Global, scop: &Scop, edited: &Edited, dep: &Dep) -> Result<Part, RowFail>
    requires edit { IsEdit (edit_of scop.now edited.now) }
    requires listed { In dep.now (dependences (edit_of scop.now edited.now)) }
    ensures part { IfOk result (λ part. part ≡ shared_system (edit_of scop.now edited.now) dep.now) }
    ensures light { OnOk result (system_weight (shared_pairing (edit_of scop.now edited.now) dep.now) dep.now.level < 2 ^ 127) }
    ensures heavy { IfErr result (λ fail. fail ≡ RowFail.Overflow → 2 ^ 127 ≤ system_weight (shared_pairing (edit_of scop.now edited.now) dep.now) dep.now.level) }
{
    let statements = edited.scop.statements();
    let source = numbered(statements, dep.source);
    let target = numbered(statements, dep.target);
    let source_part = numbered(source.domain.parts(), dep.source_part);
    let target_part = numbered(target.domain.parts(), dep.target_part);
    let source_access = numbered(source.accesses.as_slice(), dep.source_access);
    let target_access = numbered(target.accesses.as_slice(), dep.target_access);
    let Ok(source_order) = order_of(alloc, scop, edited, dep.source) else {
        return Err(RowFail::Memory);
    };
    let Ok(target_order) = order_of(alloc, scop, edited, dep.target) else {
        return Err(RowFail::Memory);
    };
    system_between(
        alloc,
        edited.scop.context(),
        source_part,
        target_part,
        source_access,
        target_access,
        &source_order,
        &target_order,
        dep.level as usize,
    )
}

/// Appends the rows of a violation of `dep` at `level` to the rows that its violations share. Overflow
/// comes exactly where an entry of them has summands whose absolute values sum above 2^127 - 1.
pub fn push_violation(
    scop: &Scop,
    edited: &Edited,
    dep: &Dep,
    part: &mut Part,
    level: usize,
) -> Result<(), RowFail>
    requires edit { IsEdit (edit_of scop.now edited.now) }
    requires listed { In dep.now (dependences (edit_of scop.now edited.now)) }
    requires shared { part.old ≡ shared_system (edit_of scop.now edited.now) dep.now }
    requires level { IsLevel (new_schedule (edit_of scop.now edited.now) dep.now.target).betas (new_schedule (edit_of scop.now edited.now) dep.now.source).betas level }
    ensures system { OnOk result (part.new ≡ violation_system (edit_of scop.now edited.now) (record { entry = dep.now; level = level })) }
    ensures light { OnOk result (reversed_weight (new_schedule (edit_of scop.now edited.now) dep.now.source) (new_schedule (edit_of scop.now edited.now) dep.now.target) level < 2 ^ 127) }
    ensures heavy { IfErr result (λ fail. fail ≡ RowFail.Overflow → 2 ^ 127 ≤ reversed_weight (new_schedule (edit_of scop.now edited.now) dep.now.source) (new_schedule (edit_of scop.now edited.now) dep.now.target) level) }
{
    let statements = edited.scop.statements();
    let source = numbered(statements, dep.source);
    let target = numbered(statements, dep.target);
    let source_part = numbered(source.domain.parts(), dep.source_part);
    let target_part = numbered(target.domain.parts(), dep.target_part);
    let w = widths_between(source_part, target_part, &source.schedule, &target.schedule);
    push_reversed(part, &w, &source.schedule, &target.schedule, level)
}
