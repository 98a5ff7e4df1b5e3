//! Decisions of worked systems in every way.

use crate::test_systems::{Wanted, answers, answers_after, columns, followed};
use crate::values::push;
use relation_core::RowKind;
use std::alloc::Global;
use std::process::Abort;
use std::test::Fail;

const MOST: i128 = i128::MAX;

type Line = (RowKind, &'static [i128]);

// A system of one output and some inputs, whose last row is left out of the base.
#[derive(Drop)]
struct Case {
    inputs: usize,
    base: &'static [Line],
    last: Line,
    wanted: Wanted,
}

fn decides(rt: &impl Abort, alloc: Global, case: &Case) -> Result<(), Fail> {
    let mut base = columns(alloc, 1, case.inputs);
    for (kind, row) in case.base {
        push(rt, &mut base, *kind, row)?;
    }
    let system = followed(rt, &base, case.last.0, case.last.1)?;
    answers_after(rt, &base, &system, case.wanted)
}

#[test]
fn worked_systems(rt: HostRuntime) -> Result<(), Fail> {
    let cases: [Case; 15] = [
        Case {
            inputs: 0,
            base: &[(RowKind::AtLeast, &[1, -1])],
            last: (RowKind::AtLeast, &[-1, 0]),
            wanted: Wanted::Empty,
        },
        Case {
            inputs: 0,
            base: &[(RowKind::AtLeast, &[1, -1])],
            last: (RowKind::AtLeast, &[-1, 1]),
            wanted: Wanted::Point,
        },
        Case {
            inputs: 0,
            base: &[],
            last: (RowKind::Equal, &[2, -1]),
            wanted: Wanted::Point,
        },
        Case {
            inputs: 0,
            base: &[],
            last: (RowKind::AtLeast, &[0, -1]),
            wanted: Wanted::Empty,
        },
        Case {
            inputs: 0,
            base: &[],
            last: (RowKind::Equal, &[0, 5]),
            wanted: Wanted::Empty,
        },
        Case {
            inputs: 0,
            base: &[(RowKind::Equal, &[0, 5])],
            last: (RowKind::AtLeast, &[1, 0]),
            wanted: Wanted::Empty,
        },
        Case {
            inputs: 0,
            base: &[(RowKind::AtLeast, &[0, 0])],
            last: (RowKind::Equal, &[0, 0]),
            wanted: Wanted::Point,
        },
        Case {
            inputs: 1,
            base: &[(RowKind::Equal, &[-1, 2, 0])],
            last: (RowKind::AtLeast, &[-1, 2, -1]),
            wanted: Wanted::Empty,
        },
        Case {
            inputs: 1,
            base: &[(RowKind::Equal, &[MOST, 1, 0])],
            last: (RowKind::AtLeast, &[1, MOST, -1]),
            wanted: Wanted::Overflow,
        },
        Case {
            inputs: 1,
            base: &[
                (RowKind::Equal, &[MOST, 1, 0]),
                (RowKind::AtLeast, &[1, MOST, -1]),
            ],
            last: (RowKind::AtLeast, &[1, 0, 0]),
            wanted: Wanted::Overflow,
        },
        Case {
            inputs: 1,
            base: &[(RowKind::Equal, &[1, 1, -4])],
            last: (RowKind::Equal, &[1, -1, -1]),
            wanted: Wanted::Point,
        },
        Case {
            inputs: 1,
            base: &[(RowKind::Equal, &[1, 1, -4])],
            last: (RowKind::Equal, &[2, 2, -9]),
            wanted: Wanted::Empty,
        },
        Case {
            inputs: 1,
            base: &[
                (RowKind::Equal, &[1, 1, -4]),
                (RowKind::Equal, &[1, -1, 0]),
                (RowKind::AtLeast, &[1, 1, 0]),
            ],
            last: (RowKind::AtLeast, &[-1, 0, 1]),
            wanted: Wanted::Empty,
        },
        Case {
            inputs: 1,
            base: &[
                (RowKind::Equal, &[1, -1, 0]),
                (RowKind::AtLeast, &[1, 0, 0]),
                (RowKind::AtLeast, &[0, 1, 0]),
            ],
            last: (RowKind::AtLeast, &[0, -1, 9]),
            wanted: Wanted::Point,
        },
        Case {
            inputs: 2,
            base: &[
                (RowKind::AtLeast, &[1, 1, 0, 0]),
                (RowKind::Equal, &[0, 1, -1, 2]),
                (RowKind::Equal, &[1, 0, 1, 3]),
            ],
            last: (RowKind::AtLeast, &[0, -1, 1, -3]),
            wanted: Wanted::Empty,
        },
    ];
    for case in &cases {
        decides(&rt, rt.alloc(), case)?;
    }
    Ok(())
}

#[test]
fn systems_without_rows(rt: HostRuntime) -> Result<(), Fail> {
    let bare = columns(rt.alloc(), 0, 0);
    answers(&rt, &bare, Wanted::Point)?;
    let free = columns(rt.alloc(), 1, 1);
    answers(&rt, &free, Wanted::Point)?;
    let none = followed(&rt, &bare, RowKind::Equal, &[0])?;
    answers_after(&rt, &bare, &none, Wanted::Point)?;
    let never = followed(&rt, &none, RowKind::AtLeast, &[-1])?;
    answers_after(&rt, &none, &never, Wanted::Empty)
}

// The first row passes 64 bits, so that the elimination decides.
#[test]
fn many_bounds_of_one_column(rt: HostRuntime) -> Result<(), Fail> {
    let mut base = columns(rt.alloc(), 1, 1);
    push(&rt, &mut base, RowKind::AtLeast, &[MOST, 0, 0])?;
    for k in 1..130u8 {
        push(&rt, &mut base, RowKind::AtLeast, &[i128::from(k), 1, 0])?;
    }
    for k in 1..128u8 {
        push(&rt, &mut base, RowKind::AtLeast, &[i128::from(k), -1, 0])?;
    }
    let system = followed(&rt, &base, RowKind::AtLeast, &[128, -1, 0])?;
    answers_after(&rt, &base, &system, Wanted::TooManyRows)
}
