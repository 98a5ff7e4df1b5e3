//! Small random systems, whose verdicts are held against a search for points.

use crate::test_systems::{
    Wanted, answers_after, columns, followed, is_found, may_answer_after, outcome,
};
use crate::values::{mixed, push};
use elim_core::decide;
use relation_core::{Part, RowKind};
use std::alloc::Global;
use std::process::Abort;
use std::test::Fail;

// A row of one output and one input: its coefficients and its constant, from -3 to 3.
#[derive(Clone, Copy)]
struct Line {
    kind: RowKind,
    x: i8,
    y: i8,
    constant: i8,
}

// The row of a seed.
fn line_of(seed: u64) -> Line {
    let number = mixed(seed);
    Line {
        kind: if number % 4 == 0 {
            RowKind::Equal
        } else {
            RowKind::AtLeast
        },
        x: small(number >> 2),
        y: small(number >> 8),
        constant: small(number >> 14),
    }
}

// A number from -3 to 3.
fn small(number: u64) -> i8 {
    (number % 7) as i8 - 3
}

// Whether a row holds at a point whose factor is `q`.
fn holds(line: Line, x: i8, y: i8, q: i8) -> bool {
    let value = product(line.x, x)
        .saturating_add(product(line.y, y))
        .saturating_add(product(line.constant, q));
    match line.kind {
        RowKind::Equal => value == 0,
        RowKind::AtLeast => value >= 0,
    }
}

fn product(a: i8, b: i8) -> i32 {
    i32::from(a) * i32::from(b)
}

// Whether every row holds at a point.
fn hold(lines: &[Line], x: i8, y: i8, q: i8) -> bool {
    for line in lines {
        if !holds(*line, x, y, q) {
            return false;
        }
    }
    true
}

// Whether every row holds at one of the points from -6 to 6 with a factor from 1 to 3.
fn have_near_point(lines: &[Line]) -> bool {
    for k in 0..507u16 {
        let x = (k % 13) as i8 - 6;
        let y = (k / 13 % 13) as i8 - 6;
        let q = (k / 169) as i8 + 1;
        if hold(lines, x, y, q) {
            return true;
        }
    }
    false
}

fn push_line(rt: &impl Abort, system: &mut Part, line: Line) -> Result<(), Fail> {
    push(rt, system, line.kind, &values(line))
}

fn values(line: Line) -> [i128; 3] {
    [
        i128::from(line.x),
        i128::from(line.y),
        i128::from(line.constant),
    ]
}

// The system of these rows but the last is a base; each way to decide the whole agrees with `decide`,
// and a point that is near is not overlooked.
fn agree(rt: &impl Abort, alloc: Global, lines: &[Line], last: Line) -> Result<bool, Fail> {
    let mut base = columns(alloc, 1, 1);
    for line in lines {
        push_line(rt, &mut base, *line)?;
    }
    let system = followed(rt, &base, last.kind, &values(last))?;
    let found = outcome(rt, &system, decide(alloc, &system))?;
    answers_after(rt, &base, &system, found)?;
    assert!(rt; is_found(&system)?);
    Ok(found == Wanted::Point)
}

#[test]
fn near_points(rt: HostRuntime) -> Result<(), Fail> {
    let mut points: u32 = 0;
    let mut near: u32 = 0;
    for seed in 0..300u64 {
        let lines = [
            line_of(seed * 4),
            line_of(seed * 4 + 1),
            line_of(seed * 4 + 2),
            line_of(seed * 4 + 3),
        ];
        let has_point = agree(&rt, rt.alloc(), &lines[..3], lines[3])?;
        let is_near = have_near_point(&lines);
        assert!(&rt; has_point || !is_near, "seed {seed}");
        points = points.saturating_add(u32::from(has_point));
        near = near.saturating_add(u32::from(is_near));
    }
    assert!(&rt; near > 0 && points < 300, "{near} near, {points} points");
    Ok(())
}

// Each row times a factor.
fn scaled(line: Line, factor: i128) -> [i128; 3] {
    let [x, y, constant] = values(line);
    [
        x.saturating_mul(factor),
        y.saturating_mul(factor),
        constant.saturating_mul(factor),
    ]
}

// The system with its first and last rows times a factor has the same outcome in each way, or passes a limit.
fn agrees_scaled(
    rt: &impl Abort,
    alloc: Global,
    lines: &[Line; 4],
    factor: i128,
) -> Result<bool, Fail> {
    let mut small = columns(alloc, 1, 1);
    for line in lines {
        push_line(rt, &mut small, *line)?;
    }
    let wanted = outcome(rt, &small, decide(alloc, &small))?;
    let mut base = columns(alloc, 1, 1);
    push(rt, &mut base, lines[0].kind, &scaled(lines[0], factor))?;
    push_line(rt, &mut base, lines[1])?;
    push_line(rt, &mut base, lines[2])?;
    let system = followed(rt, &base, lines[3].kind, &scaled(lines[3], factor))?;
    may_answer_after(rt, &base, &system, wanted)?;
    Ok(outcome(rt, &system, decide(alloc, &system))? == wanted)
}

#[test]
fn large_coefficients(rt: HostRuntime) -> Result<(), Fail> {
    let mut decided: u32 = 0;
    for factor in [1 << 60, (1 << 62) - 1, (1 << 63) - 1, i128::MAX / 3] {
        for seed in 0..40u64 {
            let lines = [
                line_of(seed * 4),
                line_of(seed * 4 + 1),
                line_of(seed * 4 + 2),
                line_of(seed * 4 + 3),
            ];
            let is_decided = agrees_scaled(&rt, rt.alloc(), &lines, factor)?;
            decided = decided.saturating_add(u32::from(is_decided));
        }
    }
    assert!(&rt; decided > 80, "{decided} decided");
    Ok(())
}
