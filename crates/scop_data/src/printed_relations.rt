//! Schedules and accesses as relations: the rows that they are printed as.

ghost use Rattle.std.specs.Prelude.{unsigned_abs, ◌≡◌, ◌<◌, ◌≤◌, ◌^◌, ◌+◌, ◌*◌, ◌+ℤ◌, pos, negsuc, neg_ℤ, [], ◌∷◌, ◌++◌, length, IfOk, OnOk, All};
ghost use Rattle.scop_data.specs.SolvedRows.{value_row, constant_row, low_row, high_row, dimension_rows, floor_rows, floor_part, value_rows, schedule_part, schedule_shape, schedule_rows, access_part, access_shape, HasSizes, PairFits, HasRelation, HasAccessRelation};

use crate::accesses::Access;
use crate::affines::Affine;
use crate::row_builders::{push_negated, push_raised, push_raised_negated, push_unit, sum_of};
use crate::schedules::{Floor, Schedule};
use relation_core::{Part, Relation, RowKind, Shape};
use row_core::{Coeff, DenseRow};
use std::alloc::Global;
use suite_base::NoMemory;

// Appends the row `-output + value = 0` of the output at place `output`.
fn push_value_row(
    alloc: Global,
    part: &mut Part,
    output: usize,
    value: &Affine,
) -> Result<(), NoMemory>
    requires output { output < part.old.shape.outputs }
    requires sizes { HasSizes part.old.shape.inputs part.old.shape.locals part.old.shape.parameters value.now }
    ensures shape { part.new.shape ≡ part.old.shape }
    ensures rows { OnOk result (part.new.rows ≡ part.old.rows ++ value_row part.old.shape output value.now ∷ []) }
{
    let shape = part.shape();
    let mut row = DenseRow::with_capacity(alloc, part.width())?;
    push_unit(&mut row, shape.outputs, output, Coeff::ONE.negated())?;
    row.push_all(value.iterators())?;
    row.push_all(value.floors())?;
    row.push_all(value.parameters())?;
    row.push(value.constant())?;
    part.push_entries(RowKind::Equal, row)
}

// Appends the row `-output + constant = 0` of the output at place `output`.
fn push_constant_row(
    alloc: Global,
    part: &mut Part,
    output: usize,
    constant: Coeff,
) -> Result<(), NoMemory>
    requires output { output < part.old.shape.outputs }
    ensures shape { part.new.shape ≡ part.old.shape }
    ensures rows { OnOk result (part.new.rows ≡ part.old.rows ++ constant_row part.old.shape output constant ∷ []) }
{
    let shape = part.shape();
    let mut row = DenseRow::with_capacity(alloc, part.width())?;
    push_unit(&mut row, shape.outputs, output, Coeff::ONE.negated())?;
    row.push_zeros(shape.inputs)?;
    row.push_zeros(shape.locals)?;
    row.push_zeros(shape.parameters)?;
    row.push(constant)?;
    part.push_entries(RowKind::Equal, row)
}

// Appends the row `value - size * local >= 0` of the local at place `local`.
fn push_low_row(alloc: Global, part: &mut Part, local: usize, floor: &Floor) -> Result<(), NoMemory>
    requires local { local < part.old.shape.locals }
    requires sizes { HasSizes part.old.shape.inputs part.old.shape.locals part.old.shape.parameters floor.now.value }
    requires range { PairFits local floor.now }
    ensures shape { part.new.shape ≡ part.old.shape }
    ensures rows { OnOk result (part.new.rows ≡ part.old.rows ++ low_row part.old.shape local floor.now ∷ []) }
{
    let shape = part.shape();
    let value = &floor.value;
    let mut row = DenseRow::with_capacity(alloc, part.width())?;
    row.push_zeros(shape.outputs)?;
    row.push_all(value.iterators())?;
    push_raised(&mut row, value.floors(), local, floor.size.negated())?;
    row.push_all(value.parameters())?;
    row.push(value.constant())?;
    part.push_entries(RowKind::AtLeast, row)
}

// Appends the row `-value + size * local + size - 1 >= 0` of the local at place `local`.
fn push_high_row(
    alloc: Global,
    part: &mut Part,
    local: usize,
    floor: &Floor,
) -> Result<(), NoMemory>
    requires local { local < part.old.shape.locals }
    requires sizes { HasSizes part.old.shape.inputs part.old.shape.locals part.old.shape.parameters floor.now.value }
    requires range { PairFits local floor.now }
    ensures shape { part.new.shape ≡ part.old.shape }
    ensures rows { OnOk result (part.new.rows ≡ part.old.rows ++ high_row part.old.shape local floor.now ∷ []) }
{
    let shape = part.shape();
    let value = &floor.value;
    let mut row = DenseRow::with_capacity(alloc, part.width())?;
    row.push_zeros(shape.outputs)?;
    push_negated(&mut row, value.iterators())?;
    push_raised_negated(&mut row, value.floors(), local, floor.size.negated())?;
    push_negated(&mut row, value.parameters())?;
    row.push(remainder_constant(value.constant(), floor.size))?;
    part.push_entries(RowKind::AtLeast, row)
}

// `-constant + size - 1`, which is in range.
fn remainder_constant(constant: Coeff, size: Coeff) -> Coeff
    requires { unsigned_abs ((neg_ℤ constant +ℤ size) +ℤ negsuc 0) < 2 ^ 127 }
    ensures { result ≡ (neg_ℤ constant +ℤ size) +ℤ negsuc 0 }
{
    Coeff::bounded(size.value() - 1 - constant.value())
}

// Appends the rows of betas and levels in turn.
fn push_dimension_rows(alloc: Global, part: &mut Part, schedule: &Schedule) -> Result<(), NoMemory>
    requires shape { part.old.shape ≡ schedule_shape part.old.shape.inputs part.old.shape.parameters schedule.now }
    requires printable { HasRelation part.old.shape.inputs part.old.shape.parameters schedule.now }
    ensures shape { part.new.shape ≡ part.old.shape }
    ensures rows { OnOk result (part.new.rows ≡ part.old.rows ++ dimension_rows part.old.shape 0 schedule.now.betas schedule.now.levels) }
{
    let betas = schedule.betas.as_slice();
    let levels = schedule.levels.as_slice();
    for k in 0..levels.len() {
        push_constant_row(alloc, part, 2 * k, betas[k])?;
        push_value_row(alloc, part, 2 * k + 1, &levels[k])?;
    }
    push_constant_row(alloc, part, 2 * levels.len(), betas[levels.len()])
}

// Appends the two rows of each floor.
fn push_floor_rows(alloc: Global, part: &mut Part, schedule: &Schedule) -> Result<(), NoMemory>
    requires locals { part.old.shape.locals ≡ length schedule.now.floors }
    requires printable { HasRelation part.old.shape.inputs part.old.shape.parameters schedule.now }
    ensures shape { part.new.shape ≡ part.old.shape }
    ensures rows { OnOk result (part.new.rows ≡ part.old.rows ++ floor_rows part.old.shape 0 schedule.now.floors) }
{
    let floors = schedule.floors.as_slice();
    for k in 0..floors.len() {
        push_low_row(alloc, part, k, &floors[k])?;
        push_high_row(alloc, part, k, &floors[k])?;
    }
    Ok(())
}

// Appends the rows of the subscripts of an access.
fn push_subscript_rows(alloc: Global, part: &mut Part, access: &Access) -> Result<(), NoMemory>
    requires shape { part.old.shape ≡ access_shape part.old.shape.inputs part.old.shape.parameters access.now }
    requires printable { HasAccessRelation part.old.shape.inputs part.old.shape.parameters access.now }
    ensures shape { part.new.shape ≡ part.old.shape }
    ensures rows { OnOk result (part.new.rows ≡ part.old.rows ++ value_rows part.old.shape 1 access.now.subscripts) }
{
    let subscripts = access.subscripts.as_slice();
    for k in 0..subscripts.len() {
        push_value_row(alloc, part, k + 1, &subscripts[k])?;
    }
    Ok(())
}

// The relation of one part.
fn relation_of(alloc: Global, part: Part) -> Result<Relation, NoMemory>
    ensures { IfOk result (λ relation. relation ≡ part ∷ []) }
{
    let mut relation = Relation::with_capacity(alloc, 1)?;
    match relation.push_part(part) {
        Ok(()) => Ok(relation),
        Err((_, failed)) => Err(failed),
    }
}

impl Schedule {
    /// The rows that the schedule is printed as, over so many iterators and parameters: a row for
    /// each beta and each level in turn, then two rows for each floor. It needs affine values of
    /// these sizes, one beta more than levels, floor rows in range, and at most 65,536 columns of
    /// each sort.
    pub fn relation(
        &self,
        alloc: Global,
        iterators: usize,
        parameters: usize,
    ) -> Result<Relation, NoMemory>
        requires { HasRelation iterators parameters self.now }
        ensures { IfOk result (λ relation. relation ≡ schedule_part iterators parameters self.now ∷ []) }
    {
        let shape = Shape {
            outputs: 2 * self.levels.len() + 1,
            inputs: iterators,
            locals: self.floors.len(),
            parameters,
        };
        let mut part = Part::with_capacity(alloc, shape, shape.outputs + 2 * shape.locals)?;
        push_dimension_rows(alloc, &mut part, self)?;
        push_floor_rows(alloc, &mut part, self)?;
        relation_of(alloc, part)
    }

    /// The two rows of each floor as a part of their own, without outputs, over so many iterators
    /// and parameters; its locals are the floors. It needs what the relation of the schedule needs.
    pub fn floor_part(
        &self,
        alloc: Global,
        iterators: usize,
        parameters: usize,
    ) -> Result<Part, NoMemory>
        requires { HasRelation iterators parameters self.now }
        ensures { IfOk result (λ part. part ≡ floor_part iterators parameters self.now.floors) }
    {
        let shape = Shape {
            outputs: 0,
            inputs: iterators,
            locals: self.floors.len(),
            parameters,
        };
        let mut part = Part::with_capacity(alloc, shape, 2 * shape.locals)?;
        push_floor_rows(alloc, &mut part, self)?;
        Ok(part)
    }
}

impl Access {
    /// The rows that the access is printed as, over so many iterators and parameters: the array's
    /// identifier, then each subscript. It needs subscripts of these sizes, and at most 65,536
    /// columns of each sort.
    pub fn relation(
        &self,
        alloc: Global,
        iterators: usize,
        parameters: usize,
    ) -> Result<Relation, NoMemory>
        requires { HasAccessRelation iterators parameters self.now }
        ensures { IfOk result (λ relation. relation ≡ access_part iterators parameters self.now ∷ []) }
    {
        let shape = Shape {
            outputs: self.subscripts.len() + 1,
            inputs: iterators,
            locals: 0,
            parameters,
        };
        let mut part = Part::with_capacity(alloc, shape, shape.outputs)?;
        push_constant_row(alloc, &mut part, 0, self.array)?;
        push_subscript_rows(alloc, &mut part, self)?;
        relation_of(alloc, part)
    }
}
