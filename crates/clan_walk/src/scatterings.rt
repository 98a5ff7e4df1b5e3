//! The schedule of a statement from the loops that are open round it.

ghost use Rattle.std.specs.Prelude.{◌≡◌, ◌≤◌, ◌<◌, ◌+◌, ℕ, pos, [], ◌∷◌, ◌++◌, length, map, get_or, IfOk, OnOk};
ghost use Rattle.suite_base.specs.Limits.{max_iterators, max_parameters};
ghost use Rattle.scop_data.specs.SolvedRows.{unit, zeros, schedule_part};
ghost use Rattle.clan_extract.specs.Scops.{levels};
ghost use Rattle.clan_walk.specs.Walk.{sign, signs};

use crate::turns::{Direction, Turn};
use relation_core::Relation;
use row_core::{Coeff, DenseRow};
use scop_data::row_builders::push_unit;
use scop_data::{Affine, Schedule};
use std::alloc::Global;
use suite_base::{List, NoMemory};

// 1 for an upward loop, -1 for a downward one.
fn sign_of(direction: Direction) -> Coeff
    ensures { result ≡ sign direction }
{
    match direction {
        Direction::Upward => Coeff::ONE,
        Direction::Downward => Coeff::ONE.negated(),
    }
}

// The level of loop `k` of `n`: its iterator, or the negative of it.
fn level(
    alloc: Global,
    n: usize,
    k: usize,
    direction: Direction,
    parameters: usize,
) -> Result<Affine, NoMemory>
    requires { k < n }
    ensures { IfOk result (λ value. value ≡ record { iterators = unit n k (sign direction); floors = []; parameters = zeros parameters; constant = pos 0 }) }
{
    let mut iterators = DenseRow::new(alloc);
    push_unit(&mut iterators, n, k, sign_of(direction))?;
    let mut others = DenseRow::new(alloc);
    others.push_zeros(parameters)?;
    let floors: [Coeff; 0] = [];
    let value = Affine::new(
        alloc,
        iterators.as_slice(),
        &floors,
        others.as_slice(),
        Coeff::ZERO,
    )?;
    Ok(value)
}

// The levels of open loops.
fn levels_of(alloc: Global, turns: &[Turn], parameters: usize) -> Result<List<Affine>, NoMemory>
    ensures { IfOk result (λ made. made ≡ levels parameters (signs turns.now)) }
{
    let mut made = List::new(alloc);
    for k in 0..turns.len() {
        let value = level(alloc, turns.len(), k, turns[k].direction, parameters)?;
        made.push(value)?;
    }
    Ok(made)
}

// Appends a number.
fn push_number(betas: &mut List<Coeff>, number: usize) -> Result<(), NoMemory>
    ensures { OnOk result (betas.new ≡ betas.old ++ pos number ∷ []) }
{
    betas.push(Coeff::bounded(number as i128))
}

// The betas of open loops, and last the number of what is next inside them.
fn betas_of(alloc: Global, turns: &[Turn], next: usize) -> Result<List<Coeff>, NoMemory>
    ensures { IfOk result (λ made. made ≡ map (λ t. pos t.beta) turns.now ++ pos next ∷ []) }
{
    let mut made = List::new(alloc);
    for turn in turns {
        push_number(&mut made, turn.beta)?;
    }
    push_number(&mut made, next)?;
    Ok(made)
}

/// The scattering of what is next inside open loops: its betas, and the iterators of the loops, each
/// negated where its loop runs downward.
pub fn scattering(
    alloc: Global,
    turns: &[Turn],
    next: usize,
    parameters: usize,
) -> Result<Relation, NoMemory>
    requires loops { length turns.now ≤ max_iterators }
    requires parameters { parameters ≤ max_parameters }
    ensures { IfOk result (λ relation. relation ≡ schedule_part (length turns.now) parameters (record { floors = []; levels = levels parameters (signs turns.now); betas = map (λ t. pos t.beta) turns.now ++ pos next ∷ [] }) ∷ []) }
{
    let schedule = Schedule {
        floors: List::new(alloc),
        levels: levels_of(alloc, turns, parameters)?,
        betas: betas_of(alloc, turns, next)?,
    };
    schedule.relation(alloc, turns.len(), parameters)
}
