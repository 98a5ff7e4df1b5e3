//! A quick repair of a point, before the simplex method.
//!
//! Nothing of this is proved but that it ends safely, so whoever calls it checks the point.

ghost use Rattle.std.specs.Prelude.{◌<◌, length, IfSome};

use relation_core::{Part, PartRow, RowKind};
use row_core::Coeff;

/// Goes through the rows from the last to the first, and moves the point along the last variable of each that does
/// not hold there, as far as it has to. Rows that were passed before may not hold any more. `None` where a row
/// cannot be made to hold so.
pub fn repair(system: &Part, point: &mut [Coeff]) -> Option<()> {
    let rows = system.rows();
    for k in 0..rows.len() {
        repair_row(&rows[rows.len() - 1 - k], point)?;
    }
    Some(())
}

// Moves the point so that the row holds there; `None` where that is not possible along its last variable.
fn repair_row(row: &PartRow, point: &mut [Coeff]) -> Option<()> {
    let value = value_at(row.entries.as_slice(), point)?;
    if holds(row.kind, value) {
        return Some(());
    }
    let k = last_variable(row.entries.as_slice())?;
    let entry = short(row.entries.as_slice()[k])?;
    let place = short(*point.get(k)?)?.checked_sub(steps(row.kind, value, entry)?)?;
    point[k] = Coeff::bounded(i128::from(place));
    Some(())
}

// The value of a row at the point, if all fits 64 bits.
fn value_at(entries: &[Coeff], point: &[Coeff]) -> Option<i64> {
    let mut value: i64 = 0;
    for k in 0..entries.len().min(point.len()) {
        if !entries[k].is_zero() {
            let product = short(entries[k])?.checked_mul(short(point[k])?)?;
            value = value.checked_add(product)?;
        }
    }
    Some(value)
}

// Whether a row of this kind may have this value.
fn holds(kind: RowKind, value: i64) -> bool {
    match kind {
        RowKind::Equal => value == 0,
        RowKind::AtLeast => value >= 0,
    }
}

// The place of the last variable of a row whose constant stands last.
fn last_variable(entries: &[Coeff]) -> Option<usize>
    ensures { IfSome result (λ k. k < length entries.now) }
{
    let count = entries.len().saturating_sub(1);
    for k in 0..count {
        let place = count - 1 - k;
        if !entries[place].is_zero() {
            return Some(place);
        }
    }
    None
}

// How far a variable with this entry has to go down until a row with this value holds.
fn steps(kind: RowKind, value: i64, entry: i64) -> Option<i64> {
    let steps = value.checked_div(entry)?;
    if value.checked_rem(entry)? == 0 {
        return Some(steps);
    }
    match kind {
        RowKind::Equal => None,
        RowKind::AtLeast => steps.checked_sub(entry.signum()),
    }
}

// A coefficient of 64 bits.
fn short(c: Coeff) -> Option<i64> {
    i64::try_from(c.value()).ok()
}
