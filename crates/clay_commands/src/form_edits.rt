//! The edit of one statement's forms by a command.

ghost use Rattle.std.specs.Prelude.{◌≡◌, ◌<◌, ◌≤◌, ◌+◌, ◌-◌, ◌^◌, pos, ◌≤ℤ◌, int_le, true, [], ◌∷◌, ◌++◌, length, map, swap, insert, slice_set, unsigned_abs, nat_lt, IfErr, IfOk, OnOk};
ghost use Rattle.scop_core.specs.AffineSums.{HaveOneSize, plus_multiple, moved, negative, widened, last_floor, sum_weight, move_weight};
ghost use Rattle.clay_commands.specs.Drafts.{form_at, widened_floor, cut, with_form, forms_after, scheduled};
ghost use Rattle.clay_commands.specs.Refusals.{floor_weight, statement_weight};
ghost use Rattle.clay_commands.specs.Steps.{IsChangeable, IsHeavy};

use crate::arguments::place_of;
use crate::edit_fails::EditFail;
use clay_script::Command;
use row_core::{Coeff, RowFail};
use scop_core::{Affine, Floor, Schedule, Statement};
use std::alloc::Global;
use suite_base::{List, NoMemory};

// The form of the level at place `k`.
fn form(levels: &List<Affine>, k: usize) -> &Affine
    requires { k < length levels.now }
    ensures { result.now ≡ form_at levels.now k }
{
    &levels.as_slice()[k]
}

/// Lets the levels at places `k` and `l` change places.
pub fn interchange(
    alloc: Global,
    levels: &mut List<Affine>,
    k: usize,
    l: usize,
) -> Result<(), NoMemory>
    requires first { k < length levels.old }
    requires second { l < length levels.old }
    ensures { OnOk result (levels.new ≡ swap levels.old k l) }
{
    let copy = form(levels, l).copy(alloc)?;
    let moved = levels.set(k, copy);
    levels.set(l, moved);
    Ok(())
}

/// Adds `f` times the level at place `l` to the one at place `k`.
pub fn skew(
    alloc: Global,
    levels: &mut List<Affine>,
    k: usize,
    l: usize,
    f: Coeff,
) -> Result<(), EditFail>
    requires first { k < length levels.old }
    requires second { l < length levels.old }
    requires sizes { HaveOneSize (form_at levels.old k) (form_at levels.old l) }
    ensures ok { OnOk result (levels.new ≡ slice_set levels.old k (plus_multiple (form_at levels.old k) f (form_at levels.old l))) }
    ensures light { OnOk result (sum_weight (form_at levels.old k) f (form_at levels.old l) < 2 ^ 127) }
    ensures heavy { IfErr result (IsHeavy (sum_weight (form_at levels.old k) f (form_at levels.old l))) }
{
    match form(levels, k).plus_multiple(alloc, f, form(levels, l)) {
        Ok(sum) => {
            levels.set(k, sum);
            Ok(())
        }
        Err(RowFail::Memory) => Err(EditFail::Memory),
        Err(RowFail::Overflow) => Err(EditFail::Heavy),
    }
}

/// Adds an affine value of the parameters to the level at place `k`.
pub fn shift(
    alloc: Global,
    levels: &mut List<Affine>,
    k: usize,
    parameters: &[Coeff],
    constant: Coeff,
) -> Result<(), EditFail>
    requires place { k < length levels.old }
    requires sizes { length (form_at levels.old k).parameters ≡ length parameters.now }
    ensures ok { OnOk result (levels.new ≡ slice_set levels.old k (moved (form_at levels.old k) parameters.now constant)) }
    ensures light { OnOk result (move_weight (form_at levels.old k) parameters.now constant < 2 ^ 127) }
    ensures heavy { IfErr result (IsHeavy (move_weight (form_at levels.old k) parameters.now constant)) }
{
    match form(levels, k).moved(alloc, parameters, constant) {
        Ok(sum) => {
            levels.set(k, sum);
            Ok(())
        }
        Err(RowFail::Memory) => Err(EditFail::Memory),
        Err(RowFail::Overflow) => Err(EditFail::Heavy),
    }
}

/// Negates the level at place `k`.
pub fn reverse(alloc: Global, levels: &mut List<Affine>, k: usize) -> Result<(), NoMemory>
    requires { k < length levels.old }
    ensures { OnOk result (levels.new ≡ slice_set levels.old k (negative (form_at levels.old k))) }
{
    let form = form(levels, k).negative(alloc)?;
    levels.set(k, form);
    Ok(())
}

// The floors, each beside one more floor.
fn widened_floors(alloc: Global, floors: &[Floor]) -> Result<List<Floor>, NoMemory>
    ensures { IfOk result (λ made. made ≡ map widened_floor floors.now) }
{
    let mut made = List::new(alloc);
    for floor in floors {
        let value = floor.value.widened(alloc)?;
        made.push(Floor {
            value,
            size: floor.size,
        })?;
    }
    Ok(made)
}

// The levels, each beside one more floor.
fn widened_levels(alloc: Global, levels: &[Affine]) -> Result<List<Affine>, NoMemory>
    ensures { IfOk result (λ made. made ≡ map widened levels.now) }
{
    let mut made = List::new(alloc);
    for level in levels {
        made.push(level.widened(alloc)?)?;
    }
    Ok(made)
}

// Whether the rows of a floor of `form` by `size` are in range.
fn has_light_floor(form: &Affine, size: Coeff) -> bool
    requires { int_le (pos 1) size ≡ true }
    ensures { result ≡ nat_lt (floor_weight form.now size) (2 ^ 127) }
{
    let constant = form.constant().value().unsigned_abs();
    let size = size.value().unsigned_abs();
    constant + size - 1 < 1 << 127
}

// The schedule with the level at place `k` in strips of `size`, and the level of the strips at place
// `t`.
fn strips(
    alloc: Global,
    schedule: &Schedule,
    k: usize,
    size: Coeff,
    t: usize,
) -> Result<Schedule, NoMemory>
    requires level { k < length schedule.now.levels }
    requires place { t ≤ length schedule.now.levels }
    ensures floors { IfOk result (λ made. made.floors ≡ (cut k size t schedule.now).floors) }
    ensures levels { IfOk result (λ made. made.levels ≡ (cut k size t schedule.now).levels) }
{
    let form = form(&schedule.levels, k);
    let mut floors = widened_floors(alloc, schedule.floors.as_slice())?;
    let value = form.widened(alloc)?;
    floors.push(Floor { value, size })?;
    let mut levels = widened_levels(alloc, schedule.levels.as_slice())?;
    levels.insert(t, form.last_floor(alloc)?)?;
    Ok(Schedule {
        floors,
        levels,
        betas: List::new(alloc),
    })
}

/// Cuts the level at place `k` into strips of `size`, with the level of the strips at place `t`.
pub fn strip(
    alloc: Global,
    schedule: &mut Schedule,
    k: usize,
    size: Coeff,
    t: usize,
) -> Result<(), EditFail>
    requires level { k < length schedule.old.levels }
    requires place { t ≤ length schedule.old.levels }
    requires size { int_le (pos 1) size ≡ true }
    ensures ok { OnOk result (schedule.new ≡ cut k size t schedule.old) }
    ensures light { OnOk result (floor_weight (form_at schedule.old.levels k) size < 2 ^ 127) }
    ensures heavy { IfErr result (IsHeavy (floor_weight (form_at schedule.old.levels k) size)) }
{
    if !has_light_floor(form(&schedule.levels, k), size) {
        return Err(EditFail::Heavy);
    }
    let made = strips(alloc, schedule, k, size, t)?;
    schedule.floors = made.floors;
    schedule.levels = made.levels;
    Ok(())
}
