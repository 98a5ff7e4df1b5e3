//! The rows of floors as a part of their own.

ghost use Rattle.std.specs.Prelude.{IfOk};
ghost use Rattle.scop_core.specs.SolvedRows.{HasRelation};

use relation_core::print_part;
use row_core::Coeff;
use scop_core::{Affine, Floor, Schedule};
use std::alloc::Global;
use std::process::Abort;
use std::test::Fail;
use suite_base::{List, NoMemory, Text};

/// The schedule that runs first, with the floor of i / 4, which no level uses, over one parameter.
fn schedule_of(alloc: Global) -> Result<Schedule, NoMemory>
    ensures { IfOk result (HasRelation 1 1) }
{
    let zero = &[Coeff::ZERO];
    let value = Affine::new(alloc, &[Coeff::ONE], zero, zero, Coeff::ZERO)?;
    let size = Coeff::bounded(4);
    let mut floors = List::new(alloc);
    floors.push(Floor { value, size })?;
    let mut betas = List::new(alloc);
    betas.push(Coeff::ZERO)?;
    Ok(Schedule {
        floors,
        levels: List::new(alloc),
        betas,
    })
}

fn has(rt: &impl Abort, text: &Text, wanted: &[u8]) -> Result<(), Fail> {
    assert_eq!(rt; text.bytes(), wanted);
    Ok(())
}

#[test]
fn floors_without_dimensions(rt: HostRuntime) -> Result<(), Fail> {
    let schedule = schedule_of(rt.alloc())?;
    let part = schedule.floor_part(rt.alloc(), 1, 1)?;
    let mut text = Text::new(rt.alloc());
    print_part(&mut text, &part)?;
    has(&rt, &text, b"2 5 0 1 1 1\n1 1 -4 0 0\n1 -1 4 0 3\n")
}
