//! Scatterings and accesses in solved form: whether a part is one, and the schedule or access that it encodes.

ghost use Rattle.std.specs.Prelude.{◌≡◌, ◌==◌, ◌<◌, ◌≤◌, ◌+◌, ◌-◌, ◌*◌, ◌/◌, ◌%◌, pos, int_le, ◌&&◌, length, count_by, true, [], ◌∷◌, ◌++◌, All, IfOk, OnOk};
ghost use Rattle.schedule_forms.specs.SolvedForm.{is_low_row, is_high_row, is_pair, size_at, low_row_of, high_row_of, value_at, has_output, has_floor, has_beta, floor_at, is_constant, is_scattering, is_access, each_below, levels_from, betas_from, floors_from, values_from, schedule_of, access_of};
ghost use Rattle.scop_data.specs.SolvedRows.{HasSizes, PairsFit, HasRelation, HasAccessRelation};

use crate::row_roles::{are_paired, column_of};
use crate::row_values::{
    all_equalities, all_formed, constant_at, find_high, find_low, floor_of, high_rows,
    is_constant_at, low_rows, output_rows, value_of,
};
use relation_core::Part;
use row_core::Coeff;
use scop_data::{Access, AccessKind, Affine, Floor, Schedule};
use std::alloc::Global;
use suite_base::{List, NoMemory};

// Whether exactly one row gives the output at place `k`.
fn has_one_row(part: &Part, k: usize) -> bool
    requires { k < part.now.shape.outputs }
    ensures { result ≡ has_output part.now k }
{
    output_rows(part, k) == 1
}

// Whether the rows that were found for a floor belong together.
fn has_pair(part: &Part, k: usize) -> bool
    requires place { k < part.now.shape.locals }
    requires low { count_by (is_low_row part.now.shape k) part.now.rows ≡ 1 }
    requires high { count_by (is_high_row part.now.shape k) part.now.rows ≡ 1 }
    ensures { result ≡ is_pair part.now.shape (size_at part.now k) (low_row_of part.now k).entries (high_row_of part.now k).entries }
{
    let shape = part.shape();
    match (find_low(part, k), find_high(part, k)) {
        (Some(low), Some(high)) => {
            let size = low.entries.get(column_of(shape, k)).negated();
            are_paired(shape, size, low.entries.as_slice(), high.entries.as_slice())
        }
        _ => false,
    }
}

// Whether exactly two rows, which belong together, give the floor of the local at place `k`.
fn has_two_rows(part: &Part, k: usize) -> bool
    requires { k < part.now.shape.locals }
    ensures { result ≡ has_floor part.now k }
{
    low_rows(part, k) == 1 && high_rows(part, k) == 1 && has_pair(part, k)
}

// Whether the output at place `2 k` is a constant.
fn has_constant(part: &Part, k: usize) -> bool
    requires place { 2 * k < part.now.shape.outputs }
    requires given { has_output part.now (2 * k) ≡ true }
    ensures { result ≡ has_beta part.now k }
{
    let _limits = part.shape();
    is_constant_at(part, 2 * k)
}

// Whether each output has exactly one row.
#[tactic(auto, using(crate::proofs::SolvedForms::each_more))]
fn has_outputs(part: &Part) -> bool
    ensures { result ≡ each_below (has_output part.now) part.now.shape.outputs }
{
    let mut good = true;
    for k in 0..part.shape().outputs {
        good = good && has_one_row(part, k);
    }
    good
}

// Whether each local has its two rows.
#[tactic(auto, using(crate::proofs::SolvedForms::each_more))]
fn has_floors(part: &Part) -> bool
    ensures { result ≡ each_below (has_floor part.now) part.now.shape.locals }
{
    let mut good = true;
    for k in 0..part.shape().locals {
        good = good && has_two_rows(part, k);
    }
    good
}

// Whether each of the first `n` outputs at even places is a constant.
#[tactic(auto, using(crate::proofs::SolvedForms::each_more))]
fn has_constants(part: &Part, n: usize) -> bool
    requires places { 2 * n ≤ part.now.shape.outputs + 1 }
    requires given { each_below (has_output part.now) part.now.shape.outputs ≡ true }
    ensures { result ≡ each_below (has_beta part.now) n }
{
    let mut good = true;
    for k in 0..n {
        good = good && has_constant(part, k);
    }
    good
}

/// Whether `part` is a scattering in solved form.
pub fn solves_schedule(part: &Part) -> bool
    ensures { result ≡ is_scattering part.now }
{
    let outputs = part.shape().outputs;
    if outputs % 2 != 1 {
        return false;
    }
    if !all_formed(part) || !has_outputs(part) || !has_floors(part) {
        return false;
    }
    has_constants(part, outputs / 2 + 1)
}

// Appends the value of the output at place `2 k + 1`.
fn push_level(alloc: Global, part: &Part, k: usize, made: &mut List<Affine>) -> Result<(), NoMemory>
    requires place { 2 * k + 1 < part.now.shape.outputs }
    requires given { has_output part.now (2 * k + 1) ≡ true }
    ensures made { OnOk result (made.new ≡ made.old ++ value_at part.now (2 * k + 1) ∷ []) }
    ensures sizes { OnOk result (All (HasSizes part.now.shape.inputs part.now.shape.locals part.now.shape.parameters) made.old → All (HasSizes part.now.shape.inputs part.now.shape.locals part.now.shape.parameters) made.new) }
{
    let _limits = part.shape();
    let value = value_of(alloc, part, 2 * k + 1)?;
    made.push(value)?;
    Ok(())
}

// The values of the outputs at places `2 k + 1`, for `n` numbers from 0 on.
fn levels_of(alloc: Global, part: &Part, n: usize) -> Result<List<Affine>, NoMemory>
    requires places { 2 * n < part.now.shape.outputs + 1 }
    requires given { each_below (has_output part.now) part.now.shape.outputs ≡ true }
    ensures levels { IfOk result (λ levels. levels ≡ levels_from part.now 0 n) }
    ensures sizes { IfOk result (All (HasSizes part.now.shape.inputs part.now.shape.locals part.now.shape.parameters)) }
    ensures count { IfOk result (λ levels. length levels ≡ n) }
{
    let mut made = List::with_capacity(alloc, n)?;
    for k in 0..n {
        push_level(alloc, part, k, &mut made)?;
    }
    Ok(made)
}

// Appends the constant of the output at place `2 k`.
fn push_beta(part: &Part, k: usize, made: &mut List<Coeff>) -> Result<(), NoMemory>
    requires place { 2 * k < part.now.shape.outputs }
    requires given { has_output part.now (2 * k) ≡ true }
    ensures { OnOk result (made.new ≡ made.old ++ (value_at part.now (2 * k)).constant ∷ []) }
{
    let _limits = part.shape();
    made.push(constant_at(part, 2 * k))
}

// The constants of the outputs at places `2 k`, for `n` numbers from 0 on.
fn betas_of(alloc: Global, part: &Part, n: usize) -> Result<List<Coeff>, NoMemory>
    requires places { 2 * n ≤ part.now.shape.outputs + 1 }
    requires given { each_below (has_output part.now) part.now.shape.outputs ≡ true }
    ensures betas { IfOk result (λ betas. betas ≡ betas_from part.now 0 n) }
    ensures count { IfOk result (λ betas. length betas ≡ n) }
{
    let mut made = List::with_capacity(alloc, n)?;
    for k in 0..n {
        push_beta(part, k, &mut made)?;
    }
    Ok(made)
}

// Appends the floor of the local at place `k`, behind those of the locals before it.
#[tactic(auto, using(crate::proofs::SolvedForms::pairs_push))]
fn push_floor(alloc: Global, part: &Part, k: usize, made: &mut List<Floor>) -> Result<(), NoMemory>
    requires place { k < part.now.shape.locals }
    requires given { has_floor part.now k ≡ true }
    requires behind { length made.old ≡ k }
    ensures made { OnOk result (made.new ≡ made.old ++ floor_at part.now k ∷ []) }
    ensures sizes { OnOk result (All (λ floor. HasSizes part.now.shape.inputs part.now.shape.locals part.now.shape.parameters floor.value) made.old → All (λ floor. HasSizes part.now.shape.inputs part.now.shape.locals part.now.shape.parameters floor.value) made.new) }
    ensures pairs { OnOk result (PairsFit made.old → PairsFit made.new) }
{
    let floor = floor_of(alloc, part, k)?;
    made.push(floor)?;
    Ok(())
}

// The floors of all locals, of which there are `n`.
fn floors_of(alloc: Global, part: &Part, n: usize) -> Result<List<Floor>, NoMemory>
    requires all { n ≡ part.now.shape.locals }
    requires given { each_below (has_floor part.now) n ≡ true }
    ensures floors { IfOk result (λ floors. floors ≡ floors_from part.now 0 n) }
    ensures sizes { IfOk result (All (λ floor. HasSizes part.now.shape.inputs part.now.shape.locals part.now.shape.parameters floor.value)) }
    ensures pairs { IfOk result PairsFit }
    ensures count { IfOk result (λ floors. length floors ≡ n) }
{
    let mut made = List::with_capacity(alloc, n)?;
    for k in 0..n {
        push_floor(alloc, part, k, &mut made)?;
    }
    Ok(made)
}

// The schedule encoded by a part with an odd number of outputs, whose floors have their rows.
fn schedule_with(alloc: Global, part: &Part) -> Result<Schedule, NoMemory>
    requires odd { part.now.shape.outputs % 2 ≡ 1 }
    requires given { each_below (has_output part.now) part.now.shape.outputs ≡ true }
    requires floors { each_below (has_floor part.now) part.now.shape.locals ≡ true }
    ensures schedule { IfOk result (λ schedule. schedule ≡ schedule_of part.now) }
    ensures printable { IfOk result (HasRelation part.now.shape.inputs part.now.shape.parameters) }
{
    let shape = part.shape();
    Ok(Schedule {
        floors: floors_of(alloc, part, shape.locals)?,
        levels: levels_of(alloc, part, shape.outputs / 2)?,
        betas: betas_of(alloc, part, shape.outputs / 2 + 1)?,
    })
}

/// The schedule encoded by a scattering in solved form.
pub fn solved_schedule(alloc: Global, part: &Part) -> Result<Schedule, NoMemory>
    requires { is_scattering part.now ≡ true }
    ensures schedule { IfOk result (λ schedule. schedule ≡ schedule_of part.now) }
    ensures printable { IfOk result (HasRelation part.now.shape.inputs part.now.shape.parameters) }
{
    schedule_with(alloc, part)
}

// Whether the first output is a constant of at least 1.
fn has_identifier(part: &Part) -> bool
    requires some { 1 ≤ part.now.shape.outputs }
    requires given { each_below (has_output part.now) part.now.shape.outputs ≡ true }
    ensures { result ≡ (is_constant (value_at part.now 0) && int_le (pos 1) (value_at part.now 0).constant) }
{
    is_constant_at(part, 0) && 1 <= constant_at(part, 0).value()
}

/// Whether `part` is an access in solved form.
pub fn solves_access(part: &Part) -> bool
    ensures { result ≡ is_access part.now }
{
    let shape = part.shape();
    if shape.locals != 0 || shape.outputs < 1 {
        return false;
    }
    if !all_equalities(part) || !all_formed(part) || !has_outputs(part) {
        return false;
    }
    has_identifier(part)
}

// Appends the value of the output at place `k + 1`.
fn push_subscript(
    alloc: Global,
    part: &Part,
    k: usize,
    made: &mut List<Affine>,
) -> Result<(), NoMemory>
    requires place { k + 1 < part.now.shape.outputs }
    requires given { has_output part.now (k + 1) ≡ true }
    ensures made { OnOk result (made.new ≡ made.old ++ value_at part.now (k + 1) ∷ []) }
    ensures sizes { OnOk result (All (HasSizes part.now.shape.inputs part.now.shape.locals part.now.shape.parameters) made.old → All (HasSizes part.now.shape.inputs part.now.shape.locals part.now.shape.parameters) made.new) }
{
    let _limits = part.shape();
    let value = value_of(alloc, part, k + 1)?;
    made.push(value)?;
    Ok(())
}

// The values of `n` outputs behind the first.
fn subscripts_of(alloc: Global, part: &Part, n: usize) -> Result<List<Affine>, NoMemory>
    requires places { n < part.now.shape.outputs }
    requires given { each_below (has_output part.now) part.now.shape.outputs ≡ true }
    ensures subscripts { IfOk result (λ values. values ≡ values_from part.now 1 n) }
    ensures sizes { IfOk result (All (HasSizes part.now.shape.inputs part.now.shape.locals part.now.shape.parameters)) }
    ensures count { IfOk result (λ values. length values ≡ n) }
{
    let mut made = List::with_capacity(alloc, n)?;
    for k in 0..n {
        push_subscript(alloc, part, k, &mut made)?;
    }
    Ok(made)
}

// The access of this kind encoded by a part without locals that has an output.
fn access_with(alloc: Global, kind: AccessKind, part: &Part) -> Result<Access, NoMemory>
    requires outputs { 1 ≤ part.now.shape.outputs }
    requires given { each_below (has_output part.now) part.now.shape.outputs ≡ true }
    requires locals { part.now.shape.locals ≡ 0 }
    ensures access { IfOk result (λ access. access ≡ access_of kind part.now) }
    ensures printable { IfOk result (HasAccessRelation part.now.shape.inputs part.now.shape.parameters) }
{
    let shape = part.shape();
    let array = constant_at(part, 0);
    let subscripts = subscripts_of(alloc, part, shape.outputs - 1)?;
    Ok(Access {
        kind,
        array,
        subscripts,
    })
}

/// The access of this kind encoded by an access relation in solved form.
pub fn solved_access(alloc: Global, kind: AccessKind, part: &Part) -> Result<Access, NoMemory>
    requires { is_access part.now ≡ true }
    ensures access { IfOk result (λ access. access ≡ access_of kind part.now) }
    ensures printable { IfOk result (HasAccessRelation part.now.shape.inputs part.now.shape.parameters) }
{
    access_with(alloc, kind, part)
}
