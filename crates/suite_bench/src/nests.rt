//! Dependence systems of two statements of three loops each: the matrix product's, and others that
//! are made from fixed numbers.

ghost use Rattle.std.specs.Prelude.{◌≡◌, ◌<◌, ◌≤◌, IfOk};
ghost use Rattle.suite_base.specs.Limits.{max_dimensions};
ghost use Rattle.elim_core.specs.Reductions.{BeginsWith};

use crate::dice::Dice;
use crate::rows::{Term, at, push};
use relation_core::{Part, RowKind, Shape};
use std::alloc::Global;
use suite_base::NoMemory;

// The loops of one statement.
const LOOPS: usize = 3;

// The place of the first local.
const LOCALS: usize = 6;

/// The rows of two instances of the matrix product's statement that reach one element of C, without
/// those of a level: six rows of bounds each, and two equalities of subscripts.
pub fn product(alloc: Global) -> Result<Part, NoMemory> {
    let mut system = empty(alloc, 0, 1);
    for d in 0..LOCALS {
        push(&mut system, RowKind::AtLeast, &[at(d, 1)])?;
        let upper = [at(d, -1), at(LOCALS, 1), at(LOCALS + 1, -1)];
        push(&mut system, RowKind::AtLeast, &upper)?;
    }
    for d in 0..2 {
        push(&mut system, RowKind::Equal, &[at(d, 1), at(d + LOOPS, -1)])?;
    }
    Ok(system)
}

/// The rows that two statements share at all levels: bounds of their loops, some of them by an outer
/// loop, pairs of rows of floors, and equalities of subscripts; 13 to 37 rows and 8 to 16 columns.
pub fn nest(alloc: Global, seed: u64) -> Result<Part, NoMemory> {
    let mut dice = Dice::new(seed);
    let floors = dice.below(7);
    let parameters = dice.below(3) + 1;
    let mut system = empty(alloc, floors, parameters);
    let places = Places {
        parameters: LOCALS + floors,
        constant: LOCALS + floors + parameters,
    };
    push_bounds(&mut dice, &mut system, &places)?;
    for floor in 0..floors {
        push_floor(&mut dice, &mut system, &places, LOCALS + floor)?;
    }
    for _ in 0..dice.below(3) + 1 {
        push_subscript(&mut dice, &mut system, &places)?;
    }
    Ok(system)
}

/// The base with the rows of a level: the outer loops are equal, and the source's loop is less.
pub fn at_level(alloc: Global, base: &Part, level: usize) -> Result<Part, NoMemory>
    requires { level < LOOPS }
    ensures { IfOk result (λ system. BeginsWith system base.now) }
{
    let mut system = base.copy(alloc)?;
    for d in 0..level {
        push(&mut system, RowKind::Equal, &[at(d, 1), at(d + LOOPS, -1)])?;
    }
    let constant = system.width() - 1;
    let later = [at(level + LOOPS, 1), at(level, -1), at(constant, -1)];
    push(&mut system, RowKind::AtLeast, &later)?;
    Ok(system)
}

// Where the columns of parameters and the constant begin.
#[derive(Clone, Copy)]
struct Places {
    parameters: usize,
    constant: usize,
}

// A part without rows, of three outputs and three inputs.
fn empty(alloc: Global, locals: usize, parameters: usize) -> Part
    requires locals { locals ≤ max_dimensions }
    requires parameters { parameters ≤ max_dimensions }
{
    let shape = Shape {
        outputs: LOOPS,
        inputs: LOOPS,
        locals,
        parameters,
    };
    Part::new(alloc, shape)
}

// A lower and an upper bound of each of the six loops, and now and then another upper bound.
fn push_bounds(dice: &mut Dice, system: &mut Part, places: &Places) -> Result<(), NoMemory> {
    for d in 0..LOCALS {
        let lower = [at(d, 1), outer(dice, d, -1), at(places.constant, 1)];
        push(system, RowKind::AtLeast, &lower)?;
        for _ in 0..dice.below(2) + 1 {
            let upper = [at(d, -1), limit(dice, places), at(places.constant, -1)];
            push(system, RowKind::AtLeast, &upper)?;
        }
    }
    Ok(())
}

// The loop round a loop, in about one of three cases; else nothing.
fn outer(dice: &mut Dice, d: usize, factor: i16) -> Term {
    if d % LOOPS > 0 && dice.below(3) == 0 {
        at(d - 1, factor)
    } else {
        at(d, 0)
    }
}

// One of the parameters.
fn limit(dice: &mut Dice, places: &Places) -> Term {
    if places.parameters < places.constant {
        at(
            places.parameters + dice.below(places.constant - places.parameters),
            1,
        )
    } else {
        at(places.constant, 100)
    }
}

// The two rows of a floor of a loop and a parameter.
fn push_floor(
    dice: &mut Dice,
    system: &mut Part,
    places: &Places,
    floor: usize,
) -> Result<(), NoMemory> {
    let divisor = dice.small(3) + 2;
    let d = dice.below(LOCALS);
    let more = limit(dice, places);
    let low = [at(d, 1), more, at(floor, -divisor)];
    push(system, RowKind::AtLeast, &low)?;
    let high = [
        at(d, -1),
        at(more.column, more.factor.saturating_neg()),
        at(floor, divisor),
        at(places.constant, divisor - 1),
    ];
    push(system, RowKind::AtLeast, &high)
}

// An equality of two subscripts, some of them with a floor.
fn push_subscript(dice: &mut Dice, system: &mut Part, places: &Places) -> Result<(), NoMemory> {
    let source = dice.below(LOOPS);
    let target = dice.below(LOOPS);
    let row = [
        at(source, dice.small(2) + 1),
        at(target + LOOPS, -1 - dice.small(2)),
        at(LOCALS + dice.below(7), dice.small(2)),
        at(places.constant, dice.small(5) - 2),
    ];
    push(system, RowKind::Equal, &row)
}
