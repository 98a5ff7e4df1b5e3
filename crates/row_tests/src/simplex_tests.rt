//! Systems on which the simplex method goes wrong if it is changed a little, and those that it leaves to the
//! elimination.

use crate::test_systems::{Wanted, answers, answers_after, columns, followed, is_found};
use crate::values::push;
use relation_core::{Part, RowKind};
use std::alloc::Global;
use std::process::Abort;
use std::test::Fail;

// A system of inequalities over as many outputs.
fn system_of(
    rt: &impl Abort,
    alloc: Global,
    variables: usize,
    rows: &[&[i128]],
) -> Result<Part, Fail> {
    let mut system = columns(alloc, variables, 0);
    for row in rows {
        push(rt, &mut system, RowKind::AtLeast, row)?;
    }
    Ok(system)
}

// If rows and columns were chosen by where they stand, and not by their variables, the pivots of each of
// these would come back to where they were.
#[test]
fn no_cycle(rt: HostRuntime) -> Result<(), Fail> {
    let first: [&[i128]; 8] = [
        &[1, 0, 0, 0],
        &[0, 1, 0, 0],
        &[0, 0, 1, 0],
        &[1, 2, 3, -2],
        &[2, -3, -1, -3],
        &[-2, -2, -1, 1],
        &[2, -1, 1, 1],
        &[3, 1, 0, -3],
    ];
    let second: [&[i128]; 8] = [
        &[1, 0, 0, 0],
        &[0, 1, 0, 0],
        &[0, 0, 1, 0],
        &[2, -3, -1, -1],
        &[-2, -1, 3, 0],
        &[0, 2, 3, -2],
        &[0, 2, 1, 3],
        &[-3, -3, -2, 2],
    ];
    for rows in [first, second] {
        let system = system_of(&rt, rt.alloc(), 3, &rows)?;
        assert!(&rt; is_found(&system)?);
        answers(&rt, &system, Wanted::Empty)?;
    }
    Ok(())
}

const LARGE: i128 = 1 << 61;

// The combinations of two of these rows pass 64 bits, but no product of the elimination passes 127.
#[test]
fn the_elimination_decides(rt: HostRuntime) -> Result<(), Fail> {
    let open: [&[i128]; 2] = [&[LARGE + 1, LARGE + 9, -5], &[-LARGE - 3, LARGE + 5, -7]];
    let system = system_of(&rt, rt.alloc(), 2, &open)?;
    assert!(&rt; !is_found(&system)?);
    answers(&rt, &system, Wanted::Point)?;
    let closed: [&[i128]; 3] = [
        &[LARGE + 1, LARGE + 3, -1],
        &[-LARGE - 1, -LARGE - 3, 0],
        &[LARGE + 5, -LARGE - 9, 1],
    ];
    let system = system_of(&rt, rt.alloc(), 2, &closed)?;
    assert!(&rt; !is_found(&system)?);
    answers(&rt, &system, Wanted::Empty)
}

// A base that passes 64 bits, one that is empty, one that leaves a variable free, and one that leaves none: each
// is gone on from, the last by equalities too, below and above.
#[test]
fn bases_of_each_kind(rt: HostRuntime) -> Result<(), Fail> {
    let wide = system_of(&rt, rt.alloc(), 2, &[&[8 * LARGE, 1, 0]])?;
    let system = followed(&rt, &wide, RowKind::Equal, &[0, 1, -1])?;
    assert!(&rt; !is_found(&system)?);
    answers_after(&rt, &wide, &system, Wanted::Point)?;
    let empty = system_of(&rt, rt.alloc(), 2, &[&[1, 1, -1], &[-1, -1, 0]])?;
    goes_on(&rt, &empty, RowKind::AtLeast, &[1, 0, 0], Wanted::Empty)?;
    let free = system_of(&rt, rt.alloc(), 2, &[&[2, 0, -1]])?;
    goes_on(&rt, &free, RowKind::Equal, &[3, 5, 0], Wanted::Point)?;
    let rows: [&[i128]; 3] = [&[2, 0, -1], &[0, 3, -1], &[-1, -1, 5]];
    let bounds = system_of(&rt, rt.alloc(), 2, &rows)?;
    goes_on(&rt, &bounds, RowKind::Equal, &[7, -4, 0], Wanted::Point)?;
    goes_on(&rt, &bounds, RowKind::Equal, &[1, 1, 0], Wanted::Empty)?;
    goes_on(&rt, &bounds, RowKind::Equal, &[1, 1, -6], Wanted::Empty)?;
    goes_on(&rt, &bounds, RowKind::AtLeast, &[-5, -7, 1], Wanted::Empty)?;
    goes_on(&rt, &bounds, RowKind::AtLeast, &[3, -1, 2], Wanted::Point)
}

// The base with one row more is found, and has this outcome.
fn goes_on(
    rt: &impl Abort,
    base: &Part,
    kind: RowKind,
    row: &[i128],
    wanted: Wanted,
) -> Result<(), Fail> {
    let system = followed(rt, base, kind, row)?;
    assert!(rt; is_found(&system)?);
    answers_after(rt, base, &system, wanted)
}
