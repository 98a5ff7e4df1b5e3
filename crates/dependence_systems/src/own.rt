//! The systems of one SCoP: those of its statements under their own schedules.

ghost use Rattle.std.specs.Prelude.{◌≡◌, ◌<◌, ◌≤◌, ◌^◌, length, IfOk, IfErr, OnOk};
ghost use Rattle.suite_base.specs.Limits.{max_statements, max_systems};
ghost use Rattle.scop_core.specs.LevelOrder.{IsLevel};
ghost use Rattle.scop_core.specs.Sequences.{In};
ghost use Rattle.dependence_systems.specs.Sides.{own_sides};
ghost use Rattle.dependence_systems.specs.Originals.{own_originals};
ghost use Rattle.dependence_systems.specs.Entries.{entries, IsTooMany};
ghost use Rattle.dependence_systems.specs.Systems.{pairing_of, system_of, summand_weight};

use crate::dependences::Dep;
use crate::listing::deps;
use crate::pairings::Pairing;
use crate::systems::{pairing_for, system};
use relation_core::Part;
use row_core::RowFail;
use scop_core::{Pieces, Scop};
use std::alloc::Global;
use suite_base::{Fail, List, NoMemory};

/// The list of a SCoP's own systems, that is of its statements under their own schedules; `pieces` has each
/// statement as its own original. It refuses as `deps` does.
pub fn own_deps(alloc: Global, scop: &Scop, pieces: &Pieces) -> Result<List<Dep>, Fail>
    requires own { pieces.now ≡ own_originals scop.now }
    ensures list { IfOk result (λ list. list ≡ entries (own_sides scop.now)) }
    ensures few { IfOk result (λ list. length list ≤ max_systems) }
    ensures cause { IfErr result (IsTooMany (entries (own_sides scop.now))) }
{
    deps(alloc, scop, scop, pieces)
}

/// Each statement of a SCoP as its own original.
pub fn own_pieces(alloc: Global, scop: &Scop) -> Result<Pieces, NoMemory>
    ensures { IfOk result (λ pieces. pieces ≡ own_originals scop.now) }
{
    statements_are_few(scop);
    let mut pieces = Pieces::new(alloc);
    for k in 0..scop.statement_count() {
        pieces.push(k as u32 + 1)?;
    }
    Ok(pieces)
}

// A SCoP has few statements: a fact for contracts.
fn statements_are_few(scop: &Scop)
    ensures { length scop.now.statements ≤ max_statements }
{
    let _count = scop.statement_count();
}

/// What the systems of an entry of that list, and of those that differ from it in the level alone, are made of.
pub fn own_pairing<'a>(scop: &'a Scop, pieces: &Pieces, entry: &Dep) -> Pairing<'a>
    requires own { pieces.now ≡ own_originals scop.now }
    requires listed { In entry.now (entries (own_sides scop.now)) }
    ensures pairing { result ≡ pairing_of scop.now.context (own_sides scop.now) entry.now }
    ensures level { IsLevel result.source_schedule.betas result.target_schedule.betas entry.now.level }
{
    pairing_for(scop, scop, pieces, entry)
}

/// The system of one entry of that list. Overflow comes as `system` has it.
pub fn own_system(alloc: Global, scop: &Scop, pieces: &Pieces, entry: &Dep) -> Result<Part, RowFail>
    requires own { pieces.now ≡ own_originals scop.now }
    requires listed { In entry.now (entries (own_sides scop.now)) }
    ensures rows { IfOk result (λ part. part ≡ system_of scop.now.context (own_sides scop.now) entry.now) }
    ensures light { OnOk result (summand_weight scop.now.context (own_sides scop.now) entry.now < 2 ^ 127) }
    ensures overflow { IfErr result (λ fail. fail ≡ RowFail.Overflow → 2 ^ 127 ≤ summand_weight scop.now.context (own_sides scop.now) entry.now) }
{
    system(alloc, scop, scop, pieces, entry)
}
