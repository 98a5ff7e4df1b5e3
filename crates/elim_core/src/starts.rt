//! The working rows with which the elimination begins: each row of the system with the multiplier 1
//! at its own place.

ghost use Rattle.std.specs.Prelude.{◌≡◌, ◌<◌, ◌≤◌, ◌+◌, ◌^◌, ◌++◌, drop, length, IfOk, OnOk};
ghost use Rattle.relation_core.specs.Systems.{row_at};
ghost use Rattle.elim_core.specs.Elimination.{unit, started_from};
ghost use Rattle.elim_core.specs.Tableaux.{starting};

use crate::counts::{entry_count, row_count, variable_count};
use crate::tableaux::Tableau;
use crate::working_rows::WorkingRow;
use relation_core::Part;
use row_core::{Coeff, DenseRow, Row};
use std::alloc::Global;
use suite_base::NoMemory;

/// The rows of `system`, each with its multipliers behind it.
pub fn start<R: Row>(alloc: Global, system: &Part) -> Result<Tableau<R>, NoMemory>
    ensures { IfOk result (λ tableau. tableau ≡ starting system.now) }
{
    let n = variable_count(system);
    let count = row_count(system);
    let mut rows = Vec::with_capacity(alloc, count)?;
    start_from(alloc, system, 0, &mut rows)?;
    Ok(Tableau::new(n, n + 1 + count, rows))
}

/// Appends the rows of `system` from row `first` on, each with its multipliers behind it.
pub fn start_from<R: Row>(
    alloc: Global,
    system: &Part,
    first: usize,
    rows: &mut Vec<WorkingRow<R>>,
) -> Result<(), NoMemory>
    requires { first ≤ length system.now.rows }
    ensures { OnOk result (rows.new.items ≡ rows.old.items ++ started_from (length system.now.rows) first (drop first system.now.rows)) }
{
    for i in first..system.row_count() {
        let row = starting_row(alloc, system, i)?;
        rows.push(WorkingRow::new(system.kind(i), row))?;
    }
    Ok(())
}

// The entries of row `i`, and behind them its multipliers, which are 0 but for a 1 at its own place.
fn starting_row<R: Row>(alloc: Global, system: &Part, i: usize) -> Result<R, NoMemory>
    requires { i < length system.now.rows }
    ensures { IfOk result (λ row. R.coefficients row ≡ (row_at system.now.rows i).entries ++ unit i (length system.now.rows)) }
{
    let _variables = variable_count(system);
    let _form = system.row_count();
    let count = row_count(system);
    let entries = &system.rows()[i].entries;
    let mut row = R::with_capacity(alloc, entry_count(entries).saturating_add(1))?;
    push_entries(entries, &mut row)?;
    row.push_zeros(i)?;
    row.push(Coeff::ONE)?;
    row.push_zeros(count - i - 1)?;
    Ok(row)
}

// Appends all entries of a row.
fn push_entries<R: Row>(entries: &DenseRow, row: &mut R) -> Result<(), NoMemory>
    requires { length (R.coefficients row.old) + length entries.now < 2 ^ 64 }
    ensures { OnOk result (R.coefficients row.new ≡ R.coefficients row.old ++ entries.now) }
{
    for k in 0..entries.len() {
        row.push(entries.get(k))?;
    }
    Ok(())
}
