//! Tests on rows: which output or which floor a row gives.

ghost use Rattle.std.specs.Prelude.{◌≡◌, ◌==◌, ◌<◌, ◌≤◌, ◌+◌, ◌+ℤ◌, ◌&&◌, not, pos, negsuc, neg_ℤ, int_lt, length, count_by, MatchOption, unsigned_abs, slice_range};
ghost use Rattle.std.specs.Prelude.{◌≤ℤ◌};
ghost use Rattle.std.specs.Bool.{Decides};
ghost use Rattle.row_core.specs.Rows.{entry};
ghost use Rattle.relation_core.specs.Systems.{columns, width, row_at, HasLimits};
ghost use Rattle.schedule_forms.specs.SolvedForm.{weight, is_equality, outputs_of, local_column, locals_from, is_formed, are_formed, is_output_row, is_local_row, is_low_row, is_high_row, first_row, are_opposite, is_pair, are_equalities};

use relation_core::{Part, PartRow, RowKind, Shape};
use row_core::Coeff;

/// Whether all of `coeffs` are zero.
pub fn are_zero(coeffs: &[Coeff]) -> bool
    ensures { result ≡ (weight coeffs.now == 0) }
{
    for coeff in coeffs {
        if coeff.value() != 0 {
            return false;
        }
    }
    true
}

/// Whether one of `coeffs` is 1 or -1 and the others are zero.
pub fn is_unit(coeffs: &[Coeff]) -> bool
    ensures { result ≡ (weight coeffs.now == 1) }
{
    let mut found = false;
    for coeff in coeffs {
        let size = coeff.value().unsigned_abs();
        if size > 1 || (size == 1 && found) {
            return false;
        }
        if size == 1 {
            found = true;
        }
    }
    found
}

/// Whether `kind` is that of an equality.
pub fn is_equal(kind: RowKind) -> bool
    ensures { result ≡ is_equality kind }
{
    match kind {
        RowKind::Equal => true,
        RowKind::AtLeast => false,
    }
}

/// The column of the local at place `k`.
pub fn column_of(shape: Shape, k: usize) -> usize
    requires limits { HasLimits shape }
    requires place { k ≤ shape.locals }
    ensures { result ≡ local_column shape k }
{
    shape.outputs + shape.inputs + k
}

/// Whether a row of this shape is formed as the solved form wants it.
pub fn is_row_formed(shape: Shape, row: &PartRow) -> bool
    requires limits { HasLimits shape }
    requires wide { length row.now.entries ≡ width shape }
    ensures { result ≡ is_formed shape row.now }
{
    let entries = row.entries.as_slice();
    let outputs = &entries[0..shape.outputs];
    if is_equal(row.kind) {
        return is_unit(outputs);
    }
    are_zero(outputs) && !are_zero(&entries[column_of(shape, 0)..column_of(shape, shape.locals)])
}

/// Whether `row` gives the output at place `k`.
pub fn gives_output(k: usize, row: &PartRow) -> bool
    requires { k < length row.now.entries }
    ensures { result ≡ is_output_row k row.now }
{
    is_equal(row.kind) && row.entries.get(k).value().unsigned_abs() != 0
}

// Whether `row` is an inequality whose last local stands at place `k`.
fn ends_at_local(shape: Shape, k: usize, row: &PartRow) -> bool
    requires limits { HasLimits shape }
    requires place { k < shape.locals }
    requires wide { length row.now.entries ≡ width shape }
    ensures { result ≡ is_local_row shape k row.now }
{
    let entries = row.entries.as_slice();
    !is_equal(row.kind)
        && are_zero(&entries[column_of(shape, k + 1)..column_of(shape, shape.locals)])
}

/// Whether `row` bounds the floor at place `k` from below its value.
pub fn gives_floor(shape: Shape, k: usize, row: &PartRow) -> bool
    requires limits { HasLimits shape }
    requires place { k < shape.locals }
    requires wide { length row.now.entries ≡ width shape }
    ensures { result ≡ is_low_row shape k row.now }
{
    ends_at_local(shape, k, row) && row.entries.get(column_of(shape, k)).value() < 0
}

/// Whether `row` is the counterpart of such a row.
pub fn closes_floor(shape: Shape, k: usize, row: &PartRow) -> bool
    requires limits { HasLimits shape }
    requires place { k < shape.locals }
    requires wide { length row.now.entries ≡ width shape }
    ensures { result ≡ is_high_row shape k row.now }
{
    ends_at_local(shape, k, row) && 0 < row.entries.get(column_of(shape, k)).value()
}

// Whether `a` is the negative of `b`.
fn is_opposite(a: &[Coeff], b: &[Coeff]) -> bool
    requires { length a.now ≡ length b.now }
    ensures { result ≡ are_opposite a.now b.now }
{
    for k in 0..a.len() {
        if a[k].value() != b[k].negated().value() {
            return false;
        }
    }
    true
}

// Whether `high` is `-low + size - 1`, for a size of at least 1.
#[tactic(auto, using(crate::proofs::SolvedForms::int_eq_decides))]
fn is_remainder(high: Coeff, low: Coeff, size: Coeff) -> bool
    requires { pos 1 ≤ℤ size }
    ensures { Decides result (high ≡ (neg_ℤ low +ℤ size) +ℤ negsuc 0) }
{
    let high = high.value();
    let low = low.value();
    let rest = size.value() - 1;
    if low >= 0 {
        if high == rest - low {
            return true;
        }
        return false;
    }
    if high < 0 {
        return false;
    }
    if high + low == rest {
        return true;
    }
    false
}

/// Whether two rows of this shape are the two rows of one floor of this size.
#[tactic(auto, using(crate::proofs::SolvedForms::remainder_test))]
pub fn are_paired(shape: Shape, size: Coeff, low: &[Coeff], high: &[Coeff]) -> bool
    requires limits { HasLimits shape }
    requires low { length low.now ≡ width shape }
    requires high { length high.now ≡ width shape }
    ensures { result ≡ is_pair shape size low.now high.now }
{
    let last = low.len() - 1;
    size.value() >= 1
        && is_opposite(&high[0..last], &low[0..last])
        && is_remainder(high[last], low[last], size)
}
