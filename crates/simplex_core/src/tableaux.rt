//! The tableau: a matrix whose rows and columns have variables. Behind the columns of variables stand the
//! constants and the denominators.

ghost use Rattle.std.specs.Prelude.{◌≡◌, ◌<◌, ◌+◌, length, OnSome, IfOk, IfSome};

use crate::divisors::{Divisor, gcd};
use crate::matrices::Matrix;
use std::alloc::Global;
use std::marker::Model;
use suite_base::NoMemory;

/// A variable of the tableau.
#[derive(Clone, Copy, Debug, PartialEq, Eq)]
pub enum Variable {
    /// The variable of this column of the system, which is free.
    Free(usize),
    /// The value of this row of the system, an equality, which is 0.
    Zero(usize),
    /// The value of this row of the system, an inequality, which is at least 0.
    AtLeastZero(usize),
}

/// What a variable of the tableau may be.
#[derive(Clone, Copy, Debug, PartialEq, Eq)]
pub enum Range {
    Free,
    Zero,
    AtLeastZero,
}

/// Where a variable stands in a tableau.
#[derive(Clone, Copy, Debug, PartialEq, Eq)]
pub enum Standing {
    Column(usize),
    Row(usize),
}

impl Variable {
    /// What the variable may be.
    pub fn range(self) -> Range {
        match self {
            Variable::Free(_) => Range::Free,
            Variable::Zero(_) => Range::Zero,
            Variable::AtLeastZero(_) => Range::AtLeastZero,
        }
    }
}

/// The tableau. Contracts see the numbers of its rows and columns.
#[derive(Drop)]
pub struct Tableau {
    cells: Matrix,
    rows: Vec<Variable>,
    columns: Vec<Variable>,
}

impl Model for Tableau {
    ghost use Rattle.std.specs.Prelude.{◌≡◌, ◌+◌, length};
    ghost use Rattle.simplex_core.specs.Sizes.{Size};

    ghost Value = { Size };

    ghost view = { λ t. record { rows = length t.rows.items; columns = length t.columns.items } };

    ghost invariant = { λ t. t.cells ≡ record { rows = length t.rows.items; columns = length t.columns.items + 2 } };
}

impl Tableau {
    /// The tableau of these cells and variables.
    pub fn new(cells: Matrix, rows: Vec<Variable>, columns: Vec<Variable>) -> Tableau
        requires { cells ≡ record { rows = length rows.items; columns = length columns.items + 2 } }
        ensures { result ≡ record { rows = length rows.items; columns = length columns.items } }
    {
        Tableau {
            cells,
            rows,
            columns,
        }
    }

    /// The cells, and behind them those of so many further rows, which are zeros; `None` where there are too
    /// many to be counted.
    pub fn cells_with_rows(&self, alloc: Global, more: usize) -> Result<Option<Matrix>, NoMemory>
        ensures { IfOk result (λ made. IfSome made (λ m. m ≡ record { rows = self.now.rows + more; columns = self.now.columns + 2 })) }
    {
        self.cells.with_rows(alloc, more)
    }

    /// The variables of the rows, with room for so many more.
    pub fn row_variables(&self, alloc: Global, more: usize) -> Result<Vec<Variable>, NoMemory>
        ensures { IfOk result (λ made. length made.items ≡ self.now.rows) }
    {
        let mut made = Vec::with_capacity(alloc, self.rows.len().saturating_add(more))?;
        made.extend_from_slice(self.rows.as_slice())?;
        Ok(made)
    }

    /// The tableau of the same columns whose rows have these variables and the first of these cells; `None`
    /// where there are not as many cells.
    pub fn with_rows(
        &self,
        alloc: Global,
        cells: Matrix,
        rows: Vec<Variable>,
    ) -> Result<Option<Tableau>, NoMemory> {
        if cells.rows() < rows.len() || cells.columns() != self.columns.len() + 2 {
            return Ok(None);
        }
        Ok(Some(Tableau {
            cells: cells.first_rows(rows.len()),
            rows,
            columns: Vec::from_slice(alloc, self.columns.as_slice())?,
        }))
    }

    /// The number of rows.
    pub fn row_count(&self) -> usize
        ensures { result ≡ self.now.rows }
    {
        self.rows.len()
    }

    /// The number of columns that have variables.
    pub fn column_count(&self) -> usize
        ensures { result ≡ self.now.columns }
    {
        self.columns.len()
    }

    /// The variable of row `i`.
    pub fn row_variable(&self, i: usize) -> Variable
        requires { i < self.now.rows }
    {
        self.rows[i]
    }

    /// The variable of column `j`.
    pub fn column_variable(&self, j: usize) -> Variable
        requires { j < self.now.columns }
    {
        self.columns[j]
    }

    /// The variables of the columns.
    pub fn column_variables(&self) -> &[Variable] {
        self.columns.as_slice()
    }

    /// The cells of row `i`, and behind them its constant and its denominator.
    pub fn row(&self, i: usize) -> &[i64]
        requires { i < self.now.rows }
    {
        self.cells.row(i)
    }

    /// The cell of row `i` in column `j`.
    pub fn cell(&self, i: usize, j: usize) -> i64
        requires row { i < self.now.rows }
        requires column { j < self.now.columns }
    {
        self.cells.at(i, j)
    }

    /// The constant of row `i`.
    pub fn constant(&self, i: usize) -> i64
        requires { i < self.now.rows }
    {
        self.cells.at(i, self.columns.len())
    }

    /// The denominator of row `i`, which is positive.
    pub fn denominator(&self, i: usize) -> i64
        requires { i < self.now.rows }
    {
        self.cells.at(i, self.columns.len() + 1)
    }

    /// Exchanges the variables of row `r` and column `c`, whose cell is not 0. `None` where a cell passes
    /// 64 bits; the search then ends.
    pub fn pivot(&mut self, r: usize, c: usize) -> Option<()>
        requires row { r < self.old.rows }
        requires column { c < self.old.columns }
        ensures { self.new ≡ self.old }
    {
        self.solve_for(r, c)?;
        for i in 0..self.row_count() {
            if i != r {
                self.replace(i, r, c)?;
            }
        }
        self.exchange(r, c);
        Some(())
    }

    // Solves row `r` for the variable of column `c`.
    fn solve_for(&mut self, r: usize, c: usize) -> Option<()>
        requires row { r < self.old.rows }
        requires column { c < self.old.columns }
        ensures { self.new ≡ self.old }
    {
        let constant = self.columns.len();
        let pivot = self.cells.at(r, c);
        let denominator = self.cells.at(r, constant + 1);
        let cell = if pivot < 0 {
            denominator.checked_neg()?
        } else {
            self.cells.negate(r, constant + 1)?;
            denominator
        };
        self.cells.set(r, c, cell);
        self.cells.set(r, constant + 1, pivot.checked_abs()?);
        Some(())
    }

    // Puts what row `r` says of the variable of column `c` into row `i`.
    fn replace(&mut self, i: usize, r: usize, c: usize) -> Option<()>
        requires row { i < self.old.rows }
        requires other { r < self.old.rows }
        requires column { c < self.old.columns }
        ensures { self.new ≡ self.old }
    {
        let last = self.columns.len() + 1;
        let factor = self.cells.at(i, c);
        if factor == 0 {
            return Some(());
        }
        let denominator = self.cells.at(r, last);
        let (f, h) = lowest_terms(denominator, factor)?;
        self.cells.set(i, c, 0);
        if f == 1 && self.cells.at(i, last) == 1 {
            self.cells.add_multiple(i, h, r)
        } else {
            self.cells.combine(f, i, h, r)
        }
    }

    // Exchanges the names of row `r` and column `c`.
    fn exchange(&mut self, r: usize, c: usize)
        requires row { r < self.old.rows }
        requires column { c < self.old.columns }
        ensures { self.new ≡ self.old }
    {
        let leaving = self.rows[r];
        self.rows[r] = self.columns[c];
        self.columns[c] = leaving;
    }
}

// Both numbers divided by their greatest common divisor.
fn lowest_terms(a: i64, b: i64) -> Option<(i64, i64)> {
    if a == 1 {
        return Some((a, b));
    }
    let common = gcd(a.unsigned_abs(), b.unsigned_abs());
    if common == 1 {
        return Some((a, b));
    }
    let divisor = Divisor::new(common);
    Some((
        divisor.quotient(i128::from(a))?,
        divisor.quotient(i128::from(b))?,
    ))
}
