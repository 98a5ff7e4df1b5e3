//! The system of an entry of the list of two SCoPs, and what it is made of.

ghost use Rattle.std.specs.Prelude.{◌≡◌, ◌≤◌, ◌<◌, ◌^◌, Some, OnOk, IfOk, IfErr};
ghost use Rattle.scop_core.specs.LevelOrder.{IsLevel};
ghost use Rattle.scop_core.specs.Sequences.{In};
ghost use Rattle.dependence_systems.specs.Entries.{entries};
ghost use Rattle.dependence_systems.specs.Lookups.{HasSide};
ghost use Rattle.dependence_systems.specs.Originals.{HasOriginals};
ghost use Rattle.dependence_systems.specs.Sides.{member, sides};
ghost use Rattle.dependence_systems.specs.Systems.{pairing_of, system_of, summand_weight};

use crate::dependences::Dep;
use crate::lookups::{numbered, original_of};
use crate::pairings::Pairing;
use relation_core::Part;
use row_core::RowFail;
use scop_core::{Pieces, Scop};
use std::alloc::Global;

/// What the systems of an entry of the list, and of those that differ from it in the level alone, are
/// made of. It needs an original in `old` for each statement of `now`, by `pieces`, and an entry of their
/// list.
pub fn pairing_for<'a>(old: &'a Scop, now: &'a Scop, pieces: &Pieces, dep: &Dep) -> Pairing<'a>
    requires originals { HasOriginals old.now now.now pieces.now }
    requires listed { In dep.now (entries (sides old.now now.now pieces.now)) }
    ensures pairing { result ≡ pairing_of now.now.context (sides old.now now.now pieces.now) dep.now }
    ensures level { IsLevel result.source_schedule.betas result.target_schedule.betas dep.now.level }
{
    let source = numbered(now.statements(), dep.source);
    let target = numbered(now.statements(), dep.target);
    let source_old = numbered(old.statements(), original_of(pieces, dep.source));
    let target_old = numbered(old.statements(), original_of(pieces, dep.target));
    let source_part = numbered(source.domain.parts(), dep.source_part);
    let target_part = numbered(target.domain.parts(), dep.target_part);
    let source_access = numbered(source.accesses.as_slice(), dep.source_access);
    let target_access = numbered(target.accesses.as_slice(), dep.target_access);
    Pairing::new(
        now.context(),
        source_part,
        target_part,
        source_access,
        target_access,
        &source_old.schedule,
        &target_old.schedule,
    )
}

/// The system of an entry of the list: its rows are those of the context, of both domain parts, of the
/// floors of both schedules, of the subscripts, and of the level. It needs an original in `old` for
/// each statement of `now`, by `pieces`, and an entry of their list. Overflow comes exactly where an
/// entry of these rows has summands whose absolute values sum above 2^127 - 1.
pub fn system(
    alloc: Global,
    old: &Scop,
    now: &Scop,
    pieces: &Pieces,
    dep: &Dep,
) -> Result<Part, RowFail>
    requires originals { HasOriginals old.now now.now pieces.now }
    requires listed { In dep.now (entries (sides old.now now.now pieces.now)) }
    ensures part { IfOk result (λ part. part ≡ system_of now.now.context (sides old.now now.now pieces.now) dep.now) }
    ensures light { OnOk result (summand_weight now.now.context (sides old.now now.now pieces.now) dep.now < 2 ^ 127) }
    ensures heavy { IfErr result (λ fail. fail ≡ RowFail.Overflow → 2 ^ 127 ≤ summand_weight now.now.context (sides old.now now.now pieces.now) dep.now) }
{
    let pairing = pairing_for(old, now, pieces, dep);
    let mut part = pairing.base(alloc)?;
    pairing.push_level(&mut part, dep.level as usize)?;
    Ok(part)
}
