//! Dense systems of 4, 6 and 8 variables, of which half hold at a point that is chosen first.

ghost use Rattle.std.specs.Prelude.{◌≤◌};

use crate::test_systems::{Wanted, answers_after, columns, followed, is_found, outcome};
use crate::values::{mixed, push};
use elim_core::decide;
use relation_core::RowKind;
use std::alloc::Global;
use std::process::Abort;
use std::test::Fail;

// How many rows a base has for each variable.
const ROWS: usize = 3;

// A number from -9 to 9.
fn small(seed: u64) -> i128 {
    i128::from(mixed(seed) % 19) - 9
}

// A row of at most eight variables whose value at the chosen point is `slack`. Its constant comes last.
fn row_at(seed: u64, variables: usize, slack: i128) -> [i128; 9]
    requires { variables ≤ 8 }
{
    let mut row = [0; 9];
    let mut constant: i128 = slack;
    for k in 0..variables {
        row[k] = small(seed.wrapping_mul(16).wrapping_add(k as u64));
        let at_point = row[k].saturating_mul(small(k as u64));
        constant = constant.saturating_sub(at_point);
    }
    row[variables] = constant;
    row
}

// Whether the system of a seed has a point: every row of its base holds at the chosen point, or that is left to
// chance. The last row, an equality, holds there.
fn has_point(
    rt: &impl Abort,
    alloc: Global,
    variables: usize,
    seed: u64,
    is_chosen: bool,
) -> Result<bool, Fail>
    requires { variables ≤ 8 }
{
    let mut base = columns(alloc, variables, 0);
    for k in 0..ROWS * variables {
        let seed = seed.wrapping_mul(64).wrapping_add(k as u64);
        let slack = if is_chosen { 1 } else { small(seed) };
        let row = row_at(seed, variables, slack);
        push(rt, &mut base, RowKind::AtLeast, &row[..variables + 1])?;
    }
    let last = row_at(seed.wrapping_add(1_000), variables, 0);
    let system = followed(rt, &base, RowKind::Equal, &last[..variables + 1])?;
    let found = outcome(rt, &system, decide(alloc, &system))?;
    answers_after(rt, &base, &system, found)?;
    assert!(rt; is_found(&system)?, "{variables} variables, seed {seed}");
    Ok(found == Wanted::Point)
}

// The systems of four seeds, each in both ways.
fn decides(rt: &impl Abort, alloc: Global, variables: usize) -> Result<(), Fail>
    requires { variables ≤ 8 }
{
    for seed in 0..4u64 {
        assert!(rt;
            has_point(rt, alloc, variables, seed, true)?,
            "{variables} variables, seed {seed}"
        );
        has_point(rt, alloc, variables, seed, false)?;
    }
    Ok(())
}

#[test]
fn dense_systems(rt: HostRuntime) -> Result<(), Fail> {
    decides(&rt, rt.alloc(), 4)?;
    decides(&rt, rt.alloc(), 6)?;
    decides(&rt, rt.alloc(), 8)
}
