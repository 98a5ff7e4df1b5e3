//! The tableau with which a search begins: each row of the system says its own value.

ghost use Rattle.std.specs.Prelude.{◌≡◌, ◌<◌, ◌+◌, length, IfOk};
ghost use Rattle.relation_core.specs.Systems.{columns, width};

use crate::divisors::narrow;
use crate::matrices::Matrix;
use crate::tableaux::{Tableau, Variable};
use relation_core::{Part, RowKind};
use row_core::Coeff;
use std::alloc::Global;
use suite_base::NoMemory;

/// The tableau of `system`; `None` where a coefficient passes 64 bits.
pub fn start(alloc: Global, system: &Part) -> Result<Option<Tableau>, NoMemory> {
    let Some(mut cells) = Matrix::zeros(alloc, system.row_count(), system.width() + 1)? else {
        return Ok(None);
    };
    if fill(&mut cells, system).is_none() {
        return Ok(None);
    }
    let rows = row_variables(alloc, system)?;
    let columns = column_variables(alloc, system.width() - 1)?;
    Ok(Some(Tableau::new(cells, rows, columns)))
}

// Puts the coefficients of each row into the matrix.
fn fill(cells: &mut Matrix, system: &Part) -> Option<()>
    requires rows { cells.old.rows ≡ length system.now.rows }
    requires columns { cells.old.columns ≡ width system.now.shape + 1 }
    ensures { cells.new ≡ cells.old }
{
    for i in 0..system.row_count() {
        fill_row(cells, i, system.rows()[i].entries.as_slice())?;
    }
    Some(())
}

// Puts the coefficients of row `i` into the matrix, and the denominator 1 behind them.
fn fill_row(cells: &mut Matrix, i: usize, entries: &[Coeff]) -> Option<()>
    requires row { i < cells.old.rows }
    requires columns { cells.old.columns ≡ length entries.now + 1 }
    ensures { cells.new ≡ cells.old }
{
    for j in 0..entries.len() {
        let value = narrow(entries[j].value())?;
        cells.set(i, j, value);
    }
    cells.set(i, entries.len(), 1);
    Some(())
}

// The values of the system's rows.
fn row_variables(alloc: Global, system: &Part) -> Result<Vec<Variable>, NoMemory>
    ensures { IfOk result (λ made. length made.items ≡ length system.now.rows) }
{
    let mut made = Vec::with_capacity(alloc, system.row_count())?;
    for i in 0..system.row_count() {
        made.push(value_of(system.kind(i), i))?;
    }
    Ok(made)
}

/// The value of row `i`, which is of this kind.
pub fn value_of(kind: RowKind, i: usize) -> Variable {
    match kind {
        RowKind::Equal => Variable::Zero(i),
        RowKind::AtLeast => Variable::AtLeastZero(i),
    }
}

// The `n` variables of the system.
fn column_variables(alloc: Global, n: usize) -> Result<Vec<Variable>, NoMemory>
    ensures { IfOk result (λ made. length made.items ≡ n) }
{
    let mut made = Vec::with_capacity(alloc, n)?;
    for j in 0..n {
        made.push(Variable::Free(j))?;
    }
    Ok(made)
}
