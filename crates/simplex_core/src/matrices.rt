//! A matrix of 64-bit cells.

ghost use Rattle.std.specs.Prelude.{◌≡◌, ◌<◌, ◌≤◌, ◌+◌, IfOk, IfSome};

use crate::divisors::{Divisor, gcd_wide, sum_of_products};
use std::alloc::Global;
use std::marker::Model;
use suite_base::NoMemory;

/// A matrix, kept row after row. Contracts see its size alone.
#[derive(Drop)]
pub struct Matrix {
    rows: usize,
    columns: usize,
    cells: Vec<i64>,
}

impl Model for Matrix {
    ghost use Rattle.std.specs.Prelude.{◌≡◌, ◌*◌, length};
    ghost use Rattle.simplex_core.specs.Sizes.{Size};

    ghost Value = { Size };

    ghost view = { λ m. record { rows = m.rows; columns = m.columns } };

    ghost invariant = { λ m. length m.cells.items ≡ m.rows * m.columns };
}

impl Matrix {
    /// The matrix of zeros; `None` where it has too many cells to be counted.
    pub fn zeros(alloc: Global, rows: usize, columns: usize) -> Result<Option<Matrix>, NoMemory>
        ensures { IfOk result (λ made. IfSome made (λ m. m ≡ record { rows = rows; columns = columns })) }
    {
        let Some(count) = rows.checked_mul(columns) else {
            return Ok(None);
        };
        let cells = vec![in alloc; 0; count]?;
        Ok(Some(Matrix {
            rows,
            columns,
            cells,
        }))
    }

    /// The matrix with `more` rows of zeros behind its own; `None` where it has too many cells to be counted.
    pub fn with_rows(&self, alloc: Global, more: usize) -> Result<Option<Matrix>, NoMemory>
        ensures { IfOk result (λ made. IfSome made (λ m. m ≡ record { rows = self.now.rows + more; columns = self.now.columns })) }
    {
        let Some(rows) = self.rows.checked_add(more) else {
            return Ok(None);
        };
        let Some(count) = rows.checked_mul(self.columns) else {
            return Ok(None);
        };
        let mut cells = Vec::with_capacity(alloc, count)?;
        cells.extend_from_slice(self.cells.as_slice())?;
        cells.resize(count, 0)?;
        Ok(Some(Matrix {
            rows,
            columns: self.columns,
            cells,
        }))
    }

    /// The number of rows.
    pub fn rows(&self) -> usize
        ensures { result ≡ self.now.rows }
    {
        self.rows
    }

    /// The number of columns.
    pub fn columns(&self) -> usize
        ensures { result ≡ self.now.columns }
    {
        self.columns
    }

    /// The cell of row `i` in column `j`.
    pub fn at(&self, i: usize, j: usize) -> i64
        requires row { i < self.now.rows }
        requires column { j < self.now.columns }
    {
        self.cells[i * self.columns + j]
    }

    /// The cells of row `i`.
    pub fn row(&self, i: usize) -> &[i64]
        requires { i < self.now.rows }
    {
        let start = i * self.columns;
        &self.cells.as_slice()[start..start + self.columns]
    }

    /// Puts `value` into row `i` and column `j`.
    pub fn set(&mut self, i: usize, j: usize, value: i64)
        requires row { i < self.old.rows }
        requires column { j < self.old.columns }
        ensures { self.new ≡ self.old }
    {
        self.cells[i * self.columns + j] = value;
    }

    /// Makes the cells of row `i` zeros.
    pub fn clear(&mut self, i: usize)
        requires { i < self.old.rows }
        ensures { self.new ≡ self.old }
    {
        for j in 0..self.columns() {
            self.set(i, j, 0);
        }
    }

    /// The first `count` rows, where there are as many.
    pub fn first_rows(self, count: usize) -> Matrix
        ensures rows { count ≤ self.rows → result ≡ record { rows = count; columns = self.columns } }
    {
        if count > self.rows {
            return self;
        }
        let mut cells = self.cells;
        cells.truncate(count * self.columns);
        Matrix {
            rows: count,
            columns: self.columns,
            cells,
        }
    }

    /// Turns the signs of the first `count` cells of row `i`; `None` where one has no negative.
    pub fn negate(&mut self, i: usize, count: usize) -> Option<()>
        requires row { i < self.old.rows }
        requires columns { count < self.old.columns }
        ensures { self.new ≡ self.old }
    {
        for j in 0..count {
            let value = self.at(i, j).checked_neg()?;
            self.set(i, j, value);
        }
        Some(())
    }

    /// Row `i` becomes `f` times itself and `h` times row `r`, but for the last cell, which is only
    /// multiplied; then it is divided by a common divisor. `None` where a cell passes 64 bits.
    pub fn combine(&mut self, f: i64, i: usize, h: i64, r: usize) -> Option<()>
        requires columns { 0 < self.old.columns }
        requires row { i < self.old.rows }
        requires other { r < self.old.rows }
        ensures { self.new ≡ self.old }
    {
        let last = self.columns() - 1;
        let divisor = self.divisor(f, i, h, r)?;
        for j in 0..last {
            let sum = sum_of_products(f, self.at(i, j), h, self.at(r, j));
            self.set(i, j, divisor.quotient(sum)?);
        }
        let product = sum_of_products(f, self.at(i, last), 0, 0);
        self.set(i, last, divisor.quotient(product)?);
        Some(())
    }

    // A common divisor of the row that `combine` makes; `None` where it passes 2^64 - 1.
    fn divisor(&self, f: i64, i: usize, h: i64, r: usize) -> Option<Divisor>
        requires columns { 0 < self.now.columns }
        requires row { i < self.now.rows }
        requires other { r < self.now.rows }
    {
        let last = self.columns() - 1;
        let product = sum_of_products(f, self.at(i, last), 0, 0).unsigned_abs();
        if product >= 1 << 64 {
            return self.wide_divisor(product, f, i, h, r);
        }
        let mut divisor = Divisor::new(product as u64);
        for j in 0..last {
            if divisor.value() == 1 {
                return Some(divisor);
            }
            let sum = sum_of_products(f, self.at(i, j), h, self.at(r, j)).unsigned_abs();
            if sum >= 1 << 64 {
                return self.wide_divisor(product, f, i, h, r);
            }
            divisor = divisor.common(sum as u64);
        }
        Some(divisor)
    }

    // The same, where the `product` of the denominator or a sum passes 2^64 - 1.
    fn wide_divisor(&self, product: u128, f: i64, i: usize, h: i64, r: usize) -> Option<Divisor>
        requires columns { 0 < self.now.columns }
        requires row { i < self.now.rows }
        requires other { r < self.now.rows }
    {
        let mut divisor = product;
        for j in 0..self.columns() - 1 {
            let sum = sum_of_products(f, self.at(i, j), h, self.at(r, j));
            divisor = gcd_wide(divisor, sum.unsigned_abs());
        }
        if divisor < 1 << 64 {
            Some(Divisor::new(divisor as u64))
        } else {
            None
        }
    }

    /// Adds `h` times row `r` to row `i`, but for the last cell. `None` where a cell passes 64 bits.
    pub fn add_multiple(&mut self, i: usize, h: i64, r: usize) -> Option<()>
        requires columns { 0 < self.old.columns }
        requires row { i < self.old.rows }
        requires other { r < self.old.rows }
        ensures { self.new ≡ self.old }
    {
        let last = self.columns() - 1;
        for j in 0..last {
            let other = self.at(r, j);
            if other != 0 {
                let sum = self.at(i, j).checked_add(h.checked_mul(other)?)?;
                self.set(i, j, sum);
            }
        }
        Some(())
    }
}
