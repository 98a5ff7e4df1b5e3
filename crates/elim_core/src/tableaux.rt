//! The tableau: the working rows of an elimination, which are equally wide.
//!
//! The stated elimination goes through its tableau in two phases (`phases`). First each equality is solved
//! for its last variable and substituted in the other rows (`substitutions`). Then Fourier-Motzkin
//! elimination projects the columns in the order of `column_order`: locals, inputs, outputs and parameters,
//! each from its last (`projections`). Each row that is combined of two is divided by the greatest common
//! divisor of its entries (`division`). After each step a contradiction, a row without variables that
//! cannot hold, ends the elimination with its multipliers as the certificate (`refutations`). Else the rows
//! are normalised (`normalising`): those without variables go, and of inequalities with the same
//! coefficients the one with the least constant stays (`pruning`).

ghost use Rattle.std.specs.Prelude.{◌≡◌, ◌<◌, length, remove, slice_index_or};
ghost use Rattle.relation_core.specs.Systems.{row_at};
ghost use Rattle.elim_core.specs.RowLists.{AllRows, Wide};
ghost use Rattle.elim_core.specs.Tableaux.{with_rows};

use crate::working_rows::WorkingRow;
use row_core::Row;
use std::marker::Model;

/// Rows that each have an entry for each of `n` variables, a constant, and a multiplier for each row of
/// the system. Contracts see the rows beside the number of variables and of entries.
#[derive(Drop)]
pub struct Tableau<R: Row> {
    n: usize,
    width: usize,
    rows: Vec<WorkingRow<R>>,
}

impl<R: Row> Model for Tableau<R> {
    ghost use Rattle.elim_core.specs.Tableaux.{Stage, IsStage};

    ghost Value = { Stage };

    ghost view = { λ t. record { variables = t.n; width = t.width; rows = t.rows.items } };

    ghost invariant = { λ t. IsStage t.n t.width t.rows.items };
}

impl<R: Row> Tableau<R> {
    /// The tableau of rows of `width` entries each, with `n` variables.
    pub fn new(n: usize, width: usize, rows: Vec<WorkingRow<R>>) -> Tableau<R>
        requires fits { n < width }
        requires wide { AllRows (Wide width) rows.items }
        ensures { result ≡ record { variables = n; width = width; rows = rows.items } }
    {
        Tableau { n, width, rows }
    }

    /// The number of variables.
    pub fn variables(&self) -> usize
        ensures value { result ≡ self.now.variables }
        ensures fits { self.now.variables < self.now.width }
    {
        self.n
    }

    /// The number of entries of each row.
    pub fn width(&self) -> usize
        ensures value { result ≡ self.now.width }
        ensures wide { AllRows (Wide self.now.width) self.now.rows }
    {
        self.width
    }

    /// The number of rows.
    pub fn row_count(&self) -> usize
        ensures { result ≡ length self.now.rows }
    {
        self.rows.len()
    }

    /// The row at `k`, from 0.
    pub fn row(&self, k: usize) -> &WorkingRow<R>
        requires { k < length self.now.rows }
        ensures at { result.now ≡ row_at self.now.rows k }
        ensures value { result.now ≡ slice_index_or self.now.rows k result.now }
        ensures wide { length result.now.entries ≡ self.now.width }
        ensures fits { self.now.variables < self.now.width }
    {
        &self.rows[k]
    }

    /// Takes out the row at `k`, from 0.
    pub fn take(&mut self, k: usize) -> WorkingRow<R>
        requires { k < length self.old.rows }
        ensures row { result ≡ row_at self.old.rows k }
        ensures rest { self.new ≡ with_rows self.old (remove self.old.rows k) }
        ensures wide { length result.entries ≡ self.old.width }
        ensures fits { self.old.variables < self.old.width }
    {
        self.rows.remove(k)
    }

    /// The rows alone.
    pub fn into_rows(self) -> Vec<WorkingRow<R>>
        ensures rows { result.items ≡ self.rows }
        ensures wide { AllRows (Wide self.width) self.rows }
        ensures fits { self.variables < self.width }
    {
        self.rows
    }
}
