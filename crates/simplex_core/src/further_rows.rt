//! Further rows of a system, stated over the columns of a tableau.

ghost use Rattle.std.specs.Prelude.{◌≡◌, ◌<◌};

use crate::matrices::Matrix;
use crate::tableaux::{Range, Standing, Variable};
use relation_core::RowKind;

/// What a row says where the variables of the columns are as they may be.
#[derive(Clone, Copy, Debug, PartialEq, Eq)]
pub enum Said {
    /// It holds everywhere.
    Always,
    /// It holds nowhere.
    Never,
    /// Neither is seen.
    Open,
}

/// Adds `factor` times the variable that stands there to the value of row `i`. `None` where a cell passes
/// 64 bits, or no variable stands there.
pub fn add_variable(cells: &mut Matrix, i: usize, factor: i64, standing: Standing) -> Option<()>
    requires row { i < cells.old.rows }
    requires columns { 1 < cells.old.columns }
    ensures { cells.new ≡ cells.old }
{
    match standing {
        Standing::Column(j) => add_column(cells, i, factor, j),
        Standing::Row(r) => add_row(cells, i, factor, r),
    }
}

/// Adds `value` to the value of row `i`. `None` where the constant passes 64 bits.
pub fn add_constant(cells: &mut Matrix, i: usize, value: i64) -> Option<()>
    requires row { i < cells.old.rows }
    requires columns { 1 < cells.old.columns }
    ensures { cells.new ≡ cells.old }
{
    let constants = cells.columns() - 2;
    add_column(cells, i, value, constants)
}

// Adds `factor` times the variable of column `j` to the value of row `i`, or the factor where that is the
// column of constants.
fn add_column(cells: &mut Matrix, i: usize, factor: i64, j: usize) -> Option<()>
    requires row { i < cells.old.rows }
    requires columns { 1 < cells.old.columns }
    ensures { cells.new ≡ cells.old }
{
    let last = cells.columns() - 1;
    if j >= last {
        return None;
    }
    let added = factor.checked_mul(cells.at(i, last))?;
    let sum = cells.at(i, j).checked_add(added)?;
    cells.set(i, j, sum);
    Some(())
}

// Adds `factor` times the value of row `r` to that of row `i`.
fn add_row(cells: &mut Matrix, i: usize, factor: i64, r: usize) -> Option<()>
    requires row { i < cells.old.rows }
    requires columns { 1 < cells.old.columns }
    ensures { cells.new ≡ cells.old }
{
    if r >= cells.rows() {
        return None;
    }
    let last = cells.columns() - 1;
    let denominator = cells.at(r, last);
    let own = cells.at(i, last);
    if denominator == 1 && own == 1 {
        cells.add_multiple(i, factor, r)
    } else {
        cells.combine(denominator, i, factor.checked_mul(own)?, r)
    }
}

/// What a row of this kind says, whose cells these are.
pub fn what_is_said(kind: RowKind, columns: &[Variable], cells: &[i64]) -> Said {
    let [factors @ .., constant, _denominator] = cells else {
        return Said::Open;
    };
    let mut can_rise = false;
    let mut can_fall = false;
    for j in 0..factors.len().min(columns.len()) {
        match columns[j].range() {
            Range::Zero => {}
            Range::Free => {
                if factors[j] != 0 {
                    return Said::Open;
                }
            }
            Range::AtLeastZero => {
                can_rise = can_rise | (factors[j] > 0);
                can_fall = can_fall | (factors[j] < 0);
            }
        }
    }
    let is_below = *constant < 0 && !can_rise;
    let is_above = *constant > 0 && !can_fall;
    let is_zero = *constant == 0 && !can_fall;
    match kind {
        RowKind::Equal => end_of(is_below | is_above, is_zero && !can_rise),
        RowKind::AtLeast => end_of(is_below, is_above | is_zero),
    }
}

// What is said by a row that holds nowhere or everywhere, where that is seen.
fn end_of(is_never: bool, is_always: bool) -> Said {
    if is_never {
        Said::Never
    } else if is_always {
        Said::Always
    } else {
        Said::Open
    }
}
