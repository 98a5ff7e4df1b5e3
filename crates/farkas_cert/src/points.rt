//! The check of a rational point: every row is summed exactly there.

ghost use Rattle.std.specs.Prelude.{◌≡◌, ◌<◌, ◌≤◌, ◌+◌, ◌-◌, ◌^◌, ◌↔◌, pos, ◌≤ℤ◌, length, IsTrue, IfOk, IfSome, MatchOption, MatchResult};
ghost use Rattle.row_core.specs.Rows.{dot, entry};
ghost use Rattle.relation_core.specs.Systems.{columns, width};
ghost use Rattle.relation_core.specs.Points.{Meets, MeetsAll, HasPoint};
ghost use Rattle.farkas_cert.specs.Points.{dot_weight, rows_weight, IsPoint};

use crate::checks::TooHeavy;
use crate::products::{with_product, with_small_product};
use relation_core::{Part, PartRow, RowKind};
use row_core::{Coeff, Sum};

/// Whether `point` is a rational point of `system`: an integer numerator for each column, and last
/// their common denominator, which is at least 1. `TooHeavy` comes only where in some row the
/// absolute products sum above 2^127 - 1.
pub fn check_point(system: &Part, point: &[Coeff]) -> Result<bool, TooHeavy>
    ensures answer { MatchResult result
        (λ holds. IsTrue holds ↔ IsPoint (columns system.now.shape) system.now.rows point.now)
        (λ _. 2 ^ 127 ≤ rows_weight system.now.rows point.now) }
    ensures meaning { IfOk result (λ holds. IsTrue holds → HasPoint (columns system.now.shape) system.now.rows) }
{
    if !is_scaled(system.width(), point) {
        return Ok(false);
    }
    match meets_all(system, point) {
        None => Err(TooHeavy),
        Some(holds) => Ok(holds),
    }
}

// Whether there are `width` entries, and the last, the denominator, is at least 1.
fn is_scaled(width: usize, point: &[Coeff]) -> bool
    requires { 0 < width }
    ensures { IsTrue result ↔ ((length point.now ≡ width) × (pos 1 ≤ℤ entry point.now (width - 1))) }
{
    if point.len() != width {
        return false;
    }
    point[width - 1].value() >= 1
}

// Whether every row holds at the point; `None` only where one is too heavy.
fn meets_all(system: &Part, point: &[Coeff]) -> Option<bool>
    requires { length point.now ≡ width system.now.shape }
    ensures { MatchOption result (2 ^ 127 ≤ rows_weight system.now.rows point.now)
        (λ holds. IsTrue holds ↔ MeetsAll system.now.rows point.now) }
{
    for i in 0..system.row_count() {
        if !meets(&system.rows()[i], point)? {
            return Some(false);
        }
    }
    Some(true)
}

// Whether the row holds at the point; `None` only where it is too heavy.
fn meets(row: &PartRow, point: &[Coeff]) -> Option<bool>
    requires { length row.now.entries ≡ length point.now }
    ensures { MatchOption result (2 ^ 127 ≤ dot_weight row.now.entries point.now)
        (λ holds. IsTrue holds ↔ Meets row.now.kind (dot row.now.entries point.now)) }
{
    let value = value_at(row.entries.as_slice(), point)?;
    Some(fits(row.kind, value))
}

// Whether a row of this kind may have this value.
fn fits(kind: RowKind, value: Coeff) -> bool
    ensures { IsTrue result ↔ Meets kind value }
{
    match kind {
        RowKind::Equal => value.value() == 0,
        RowKind::AtLeast => value.value() >= 0,
    }
}

// The value of a row at the point; `None` only where it is too heavy.
fn value_at(entries: &[Coeff], point: &[Coeff]) -> Option<Coeff>
    requires { length entries.now ≡ length point.now }
    ensures { MatchOption result (2 ^ 127 ≤ dot_weight entries.now point.now)
        (λ value. value ≡ dot entries.now point.now) }
{
    match small_value_at(entries, point) {
        Some(value) => Coeff::new(i128::from(value)),
        None => Some(sum_at(entries, point)?.value()),
    }
}

// The same by 64 bits, which is quicker; `None` where these are not enough.
fn small_value_at(entries: &[Coeff], point: &[Coeff]) -> Option<i64>
    requires { length entries.now ≡ length point.now }
    ensures { IfSome result (λ value. value ≡ dot entries.now point.now) }
{
    let mut value = 0;
    for k in 0..entries.len() {
        value = with_small_product(value, entries[k], point[k])?;
    }
    Some(value)
}

// The same by a sum that has its weight.
fn sum_at(entries: &[Coeff], point: &[Coeff]) -> Option<Sum>
    requires { length entries.now ≡ length point.now }
    ensures { MatchOption result (2 ^ 127 ≤ dot_weight entries.now point.now)
        (λ sum. sum.value ≡ dot entries.now point.now) }
{
    let mut sum = Sum::zero();
    for k in 0..entries.len() {
        sum = with_product(sum, entries[k], point[k])?;
    }
    Some(sum)
}
