//! The choice of pivots.

ghost use Rattle.std.specs.Prelude.{◌≡◌, ◌<◌, IfSome};
ghost use Rattle.simplex_core.specs.Ends.{IsAmong};

use crate::tableaux::{Range, Tableau, Variable};

/// How a search ends.
#[derive(Clone, Copy, Debug, PartialEq, Eq)]
pub enum End {
    /// The values of the variables are a point.
    Solved,
    /// This row cannot hold.
    Contradiction(usize),
}

// The most pivots by Bland's rule.
const MOST_PIVOTS: usize = 10_000;

/// Pivots until the tableau shows a point or a contradiction; `None` where a cell passes 64 bits or
/// the pivots are too many. Before row `first` no equality is left that can become a column, and no free
/// variable that can become a row.
pub fn solve(tableau: &mut Tableau, first: usize) -> Option<End>
    ensures size { tableau.new ≡ tableau.old }
    ensures row { IfSome result (IsAmong tableau.old.rows) }
{
    match substitute_equalities(tableau, first)? {
        End::Contradiction(r) => return Some(End::Contradiction(r)),
        End::Solved => {}
    }
    free_variables(tableau, first)?;
    raise_all(tableau)
}

// Makes each equality from row `first` on a column. One that has no other variable left must be 0 already.
fn substitute_equalities(tableau: &mut Tableau, first: usize) -> Option<End>
    ensures size { tableau.new ≡ tableau.old }
    ensures row { IfSome result (IsAmong tableau.old.rows) }
{
    for i in first..tableau.row_count() {
        if is_equality(tableau, i) {
            match open_column(tableau, i) {
                Some(c) => tableau.pivot(i, c)?,
                None => {
                    if tableau.constant(i) != 0 {
                        return Some(End::Contradiction(i));
                    }
                }
            }
        }
    }
    Some(End::Solved)
}

// Whether the variable of row `i` has to be 0.
fn is_equality(tableau: &Tableau, i: usize) -> bool
    requires { i < tableau.now.rows }
{
    tableau.row_variable(i).range() == Range::Zero
}

// Makes free variables rows, in place of the inequalities from row `first` on.
fn free_variables(tableau: &mut Tableau, first: usize) -> Option<()>
    ensures { tableau.new ≡ tableau.old }
{
    for i in first..tableau.row_count() {
        if let Variable::AtLeastZero(_) = tableau.row_variable(i) {
            if let Some(c) = least_column(tableau, i, Range::Free) {
                tableau.pivot(i, c)?;
            }
        }
    }
    Some(())
}

// Raises the least inequality that is negative, by the least column that can, until none is negative.
fn raise_all(tableau: &mut Tableau) -> Option<End>
    ensures size { tableau.new ≡ tableau.old }
    ensures row { IfSome result (IsAmong tableau.old.rows) }
{
    for _ in 0..MOST_PIVOTS {
        let Some(r) = negative_row(tableau) else {
            return Some(End::Solved);
        };
        let Some(c) = raising_column(tableau, r) else {
            return Some(End::Contradiction(r));
        };
        tableau.pivot(r, c)?;
    }
    None
}

// The column with which an equality in row `i` is exchanged: one of a free variable, else of an inequality.
fn open_column(tableau: &Tableau, i: usize) -> Option<usize>
    requires { i < tableau.now.rows }
    ensures { IfSome result (λ c. c < tableau.now.columns) }
{
    match least_column(tableau, i, Range::Free) {
        Some(c) => Some(c),
        None => least_column(tableau, i, Range::AtLeastZero),
    }
}

// The column of a variable of this range whose cell in row `i` is the least that is not 0.
fn least_column(tableau: &Tableau, i: usize, range: Range) -> Option<usize>
    requires { i < tableau.now.rows }
    ensures { IfSome result (λ c. c < tableau.now.columns) }
{
    let mut found = None;
    let mut least = u64::MAX;
    for j in 0..tableau.column_count() {
        let size = tableau.cell(i, j).unsigned_abs();
        if size != 0 && size < least && tableau.column_variable(j).range() == range {
            least = size;
            found = Some(j);
        }
    }
    found
}

// The row of the least inequality whose value is negative.
fn negative_row(tableau: &Tableau) -> Option<usize>
    ensures { IfSome result (λ r. r < tableau.now.rows) }
{
    let mut found = None;
    let mut least = usize::MAX;
    for i in 0..tableau.row_count() {
        if tableau.constant(i) < 0 && is_below(tableau.row_variable(i), least) {
            least = number(tableau.row_variable(i));
            found = Some(i);
        }
    }
    found
}

// The column of the least inequality with a positive cell in row `r`.
fn raising_column(tableau: &Tableau, r: usize) -> Option<usize>
    requires { r < tableau.now.rows }
    ensures { IfSome result (λ c. c < tableau.now.columns) }
{
    let mut found = None;
    let mut least = usize::MAX;
    for j in 0..tableau.column_count() {
        if tableau.cell(r, j) > 0 && is_below(tableau.column_variable(j), least) {
            least = number(tableau.column_variable(j));
            found = Some(j);
        }
    }
    found
}

// Whether the variable is an inequality whose number is below `least`.
fn is_below(variable: Variable, least: usize) -> bool {
    match variable {
        Variable::AtLeastZero(k) => k < least,
        _ => false,
    }
}

// The number of the variable's row or column in the system.
fn number(variable: Variable) -> usize {
    match variable {
        Variable::Free(k) => k,
        Variable::Zero(k) => k,
        Variable::AtLeastZero(k) => k,
    }
}
