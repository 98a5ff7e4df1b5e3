//! The rows of a part in solved form: how many give an output or a floor, and what they give.

ghost use Rattle.std.specs.Prelude.{◌≡◌, ◌==◌, ◌<◌, ◌≤◌, ◌+◌, ◌-◌, ◌*◌, ◌/◌, ◌%◌, pos, int_lt, length, count_by, true, MatchOption, IfOk, neg_ℤ, unsigned_abs, ◌^◌};
ghost use Rattle.row_core.specs.Rows.{entry};
ghost use Rattle.relation_core.specs.Systems.{columns, width, row_at, HasLimits};
ghost use Rattle.schedule_forms.specs.SolvedForm.{is_output_row, is_low_row, is_high_row, are_formed, are_equalities, output_row, low_row_of, high_row_of, value_at, floor_at, affine_of, is_constant, cleared, has_floor, has_output, local_column};
ghost use Rattle.scop_data.specs.SolvedRows.{HasSizes, PairFits};

use crate::row_roles::{
    are_paired, are_zero, closes_floor, column_of, gives_floor, gives_output, is_equal,
    is_row_formed,
};
use relation_core::{Part, PartRow, Shape};
use row_core::{Coeff, DenseRow, negated};
use scop_data::{Affine, Floor};
use std::alloc::Global;
use suite_base::NoMemory;

// Row `i` of a part, from 0.
fn row_of(part: &Part, i: usize) -> &PartRow
    requires { i < length part.now.rows }
    ensures answer { result.now ≡ row_at part.now.rows i }
    ensures wide { length result.now.entries ≡ width part.now.shape }
{
    let _form = part.row_count();
    let rows = part.rows();
    &rows[i]
}

/// Whether every row is formed as the solved form wants it.
pub fn all_formed(part: &Part) -> bool
    ensures { result ≡ are_formed part.now.shape part.now.rows }
{
    let shape = part.shape();
    for i in 0..part.row_count() {
        if !is_row_formed(shape, row_of(part, i)) {
            return false;
        }
    }
    true
}

/// Whether no row is an inequality.
pub fn all_equalities(part: &Part) -> bool
    ensures { result ≡ are_equalities part.now.rows }
{
    for i in 0..part.row_count() {
        if !is_equal(row_of(part, i).kind) {
            return false;
        }
    }
    true
}

/// How many rows give the output at place `k`.
pub fn output_rows(part: &Part, k: usize) -> usize
    requires { k < width part.now.shape }
    ensures { result ≡ count_by (is_output_row k) part.now.rows }
{
    let mut count = 0;
    for i in 0..part.row_count() {
        if gives_output(k, row_of(part, i)) {
            count += 1;
        }
    }
    count
}

/// How many rows bound the floor of the local at place `k` from below its value.
pub fn low_rows(part: &Part, k: usize) -> usize
    requires { k < part.now.shape.locals }
    ensures { result ≡ count_by (is_low_row part.now.shape k) part.now.rows }
{
    let shape = part.shape();
    let mut count = 0;
    for i in 0..part.row_count() {
        if gives_floor(shape, k, row_of(part, i)) {
            count += 1;
        }
    }
    count
}

/// How many rows are counterparts of these.
pub fn high_rows(part: &Part, k: usize) -> usize
    requires { k < part.now.shape.locals }
    ensures { result ≡ count_by (is_high_row part.now.shape k) part.now.rows }
{
    let shape = part.shape();
    let mut count = 0;
    for i in 0..part.row_count() {
        if closes_floor(shape, k, row_of(part, i)) {
            count += 1;
        }
    }
    count
}

// The first row that gives the output at place `k`.
fn find_output(part: &Part, k: usize) -> Option<&PartRow>
    requires { k < width part.now.shape }
    ensures { MatchOption result (count_by (is_output_row k) part.now.rows ≡ 0) (λ row. (row.now ≡ output_row part.now k) × (length row.now.entries ≡ width part.now.shape)) }
{
    for i in 0..part.row_count() {
        let row = row_of(part, i);
        if gives_output(k, row) {
            return Some(row);
        }
    }
    None
}

/// The first row that bounds the floor of the local at place `k` from below its value.
pub fn find_low(part: &Part, k: usize) -> Option<&PartRow>
    requires { k < part.now.shape.locals }
    ensures { MatchOption result (count_by (is_low_row part.now.shape k) part.now.rows ≡ 0) (λ row. (row.now ≡ low_row_of part.now k) × (length row.now.entries ≡ width part.now.shape)) }
{
    let shape = part.shape();
    for i in 0..part.row_count() {
        let row = row_of(part, i);
        if gives_floor(shape, k, row) {
            return Some(row);
        }
    }
    None
}

/// The first counterpart of such a row.
pub fn find_high(part: &Part, k: usize) -> Option<&PartRow>
    requires { k < part.now.shape.locals }
    ensures { MatchOption result (count_by (is_high_row part.now.shape k) part.now.rows ≡ 0) (λ row. (row.now ≡ high_row_of part.now k) × (length row.now.entries ≡ width part.now.shape)) }
{
    let shape = part.shape();
    for i in 0..part.row_count() {
        let row = row_of(part, i);
        if closes_floor(shape, k, row) {
            return Some(row);
        }
    }
    None
}

// The affine value of a row's coefficients behind its outputs.
fn affine_from(alloc: Global, shape: Shape, row: &[Coeff]) -> Result<Affine, NoMemory>
    requires limits { HasLimits shape }
    requires wide { length row.now ≡ width shape }
    ensures value { IfOk result (λ value. value ≡ affine_of shape row.now) }
    ensures sizes { IfOk result (HasSizes shape.inputs shape.locals shape.parameters) }
{
    let locals = column_of(shape, 0);
    let parameters = column_of(shape, shape.locals);
    let last = parameters + shape.parameters;
    Affine::new(
        alloc,
        &row[shape.outputs..locals],
        &row[locals..parameters],
        &row[parameters..last],
        row[last],
    )
}

// Whether a row that gives the output at place `k` says the opposite of its value.
fn gives_opposite(row: &PartRow, k: usize) -> bool
    requires { k < length row.now.entries }
    ensures { result ≡ int_lt (pos 0) (entry row.now.entries k) }
{
    0 < row.entries.get(k).value()
}

/// The value of the output at place `k`, which one row gives.
pub fn value_of(alloc: Global, part: &Part, k: usize) -> Result<Affine, NoMemory>
    requires place { k < part.now.shape.outputs }
    requires given { has_output part.now k ≡ true }
    ensures value { IfOk result (λ value. value ≡ value_at part.now k) }
    ensures sizes { IfOk result (HasSizes part.now.shape.inputs part.now.shape.locals part.now.shape.parameters) }
{
    match find_output(part, k) {
        None => unreachable!(),
        Some(row) => {
            if gives_opposite(row, k) {
                let opposite = negated(alloc, &row.entries)?;
                return affine_from(alloc, part.shape(), opposite.as_slice());
            }
            affine_from(alloc, part.shape(), row.entries.as_slice())
        }
    }
}

/// The constant of the value of the output at place `k`, which one row gives.
#[tactic(auto, using(crate::proofs::ReadBackLists::negative_entry))]
pub fn constant_at(part: &Part, k: usize) -> Coeff
    requires place { k < part.now.shape.outputs }
    requires given { has_output part.now k ≡ true }
    ensures { result ≡ (value_at part.now k).constant }
{
    match find_output(part, k) {
        None => unreachable!(),
        Some(row) => {
            let constant = constant_of(part, row);
            if gives_opposite(row, k) {
                return constant.negated();
            }
            constant
        }
    }
}

// Whether the coefficients behind a row's outputs are zero, but for the constant.
fn is_constant_row(shape: Shape, row: &[Coeff]) -> bool
    requires limits { HasLimits shape }
    requires wide { length row.now ≡ width shape }
    ensures { result ≡ is_constant (affine_of shape row.now) }
{
    let locals = column_of(shape, 0);
    let parameters = column_of(shape, shape.locals);
    let last = parameters + shape.parameters;
    are_zero(&row[shape.outputs..locals])
        && are_zero(&row[locals..parameters])
        && are_zero(&row[parameters..last])
}

/// Whether the value of the output at place `k`, which one row gives, is a constant.
#[tactic(auto, using(crate::proofs::SolvedDots::negative_constant))]
pub fn is_constant_at(part: &Part, k: usize) -> bool
    requires place { k < part.now.shape.outputs }
    requires given { has_output part.now k ≡ true }
    ensures { result ≡ is_constant (value_at part.now k) }
{
    match find_output(part, k) {
        None => unreachable!(),
        Some(row) => is_constant_row(part.shape(), row.entries.as_slice()),
    }
}

// The row with 0 at place `k`.
fn without(alloc: Global, row: &[Coeff], k: usize) -> Result<DenseRow, NoMemory>
    requires { k < length row.now }
    ensures { IfOk result (λ made. made ≡ cleared row.now k) }
{
    let mut made = DenseRow::new(alloc);
    made.push_all(&row[..k])?;
    made.push(Coeff::ZERO)?;
    made.push_all(&row[k + 1..])?;
    Ok(made)
}

// The form of the floor of the local at place `k`, whose lower row is `row`.
fn form_of(alloc: Global, part: &Part, k: usize, row: &PartRow) -> Result<Affine, NoMemory>
    requires place { k < part.now.shape.locals }
    requires wide { length row.now.entries ≡ width part.now.shape }
    ensures value { IfOk result (λ value. value ≡ affine_of part.now.shape (cleared row.now.entries (local_column part.now.shape k))) }
    ensures sizes { IfOk result (HasSizes part.now.shape.inputs part.now.shape.locals part.now.shape.parameters) }
{
    let shape = part.shape();
    let form = without(alloc, row.entries.as_slice(), column_of(shape, k))?;
    affine_from(alloc, shape, form.as_slice())
}

// The size of that floor.
fn size_of_floor(part: &Part, k: usize, row: &PartRow) -> Coeff
    requires place { k < part.now.shape.locals }
    requires wide { length row.now.entries ≡ width part.now.shape }
    ensures value { result ≡ neg_ℤ (entry row.now.entries (local_column part.now.shape k)) }
    ensures range { unsigned_abs result < 2 ^ 127 }
{
    let size = row.entries.get(column_of(part.shape(), k)).negated();
    let _range = size.value();
    size
}

// The constant of a row of `part`.
fn constant_of(part: &Part, row: &PartRow) -> Coeff
    requires { length row.now.entries ≡ width part.now.shape }
    ensures value { result ≡ entry row.now.entries (columns part.now.shape) }
    ensures range { unsigned_abs result < 2 ^ 127 }
{
    let constant = row.entries.get(part.width() - 1);
    let _range = constant.value();
    constant
}

// The floor of the local at place `k`, which these two rows give.
fn floor_of_rows(
    alloc: Global,
    part: &Part,
    k: usize,
    low: &PartRow,
    high: &PartRow,
) -> Result<Floor, NoMemory>
    requires place { k < part.now.shape.locals }
    requires given { has_floor part.now k ≡ true }
    requires low { low.now ≡ low_row_of part.now k }
    requires low_wide { length low.now.entries ≡ width part.now.shape }
    requires high { high.now ≡ high_row_of part.now k }
    requires high_wide { length high.now.entries ≡ width part.now.shape }
    ensures value { IfOk result (λ floor. floor ≡ floor_at part.now k) }
    ensures sizes { IfOk result (λ floor. HasSizes part.now.shape.inputs part.now.shape.locals part.now.shape.parameters floor.value) }
    ensures pair { IfOk result (λ floor. PairFits k floor) }
{
    let size = size_of_floor(part, k, low);
    let _constant = constant_of(part, high);
    let value = form_of(alloc, part, k, low)?;
    Ok(Floor { value, size })
}

/// The floor of the local at place `k`, which is given by two rows.
pub fn floor_of(alloc: Global, part: &Part, k: usize) -> Result<Floor, NoMemory>
    requires place { k < part.now.shape.locals }
    requires given { has_floor part.now k ≡ true }
    ensures value { IfOk result (λ floor. floor ≡ floor_at part.now k) }
    ensures sizes { IfOk result (λ floor. HasSizes part.now.shape.inputs part.now.shape.locals part.now.shape.parameters floor.value) }
    ensures pair { IfOk result (λ floor. PairFits k floor) }
{
    match (find_low(part, k), find_high(part, k)) {
        (Some(low), Some(high)) => floor_of_rows(alloc, part, k, low, high),
        _ => unreachable!(),
    }
}
