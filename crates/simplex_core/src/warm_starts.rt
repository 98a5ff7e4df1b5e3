//! A search that goes on where the search over a part of its rows has ended.

ghost use Rattle.std.specs.Prelude.{◌≡◌, ◌<◌};

use crate::divisors::narrow;
use crate::further_rows::{Said, add_constant, add_variable, what_is_said};
use crate::matrices::Matrix;
use crate::pivots::{End, solve};
use crate::searches::{Candidate, point, refutation, refute, search_over};
use crate::starts::{start, value_of};
use crate::tableaux::{Standing, Tableau, Variable};
use relation_core::{Part, PartRow};
use row_core::Coeff;
use std::alloc::Global;
use suite_base::NoMemory;

/// Where the search over a base has ended. A system whose rows begin with the base's is searched from there.
#[derive(Drop)]
pub struct WarmStart {
    tableau: Tableau,
    end: End,
    // where each variable of the base stands
    standings: Vec<Standing>,
}

impl WarmStart {
    /// Searches over `base`; `None` where a number passes 64 bits, or the pivots are too many.
    pub fn new(alloc: Global, base: &Part) -> Result<Option<WarmStart>, NoMemory> {
        let Some(mut tableau) = start(alloc, base)? else {
            return Ok(None);
        };
        let Some(end) = solve(&mut tableau, 0) else {
            return Ok(None);
        };
        let standings = standings(alloc, &tableau)?;
        Ok(Some(WarmStart {
            tableau,
            end,
            standings,
        }))
    }

    /// Searches as `search` does, for a system whose rows begin with the base's. What it answers is only a
    /// candidate.
    pub fn search(&self, alloc: Global, system: &Part) -> Result<Candidate, NoMemory> {
        if let End::Contradiction(r) = self.end {
            if r < self.tableau.row_count() {
                return refutation(alloc, &self.tableau, r, system.row_count());
            }
        }
        self.search_further(alloc, system)
    }

    // Searches with the further rows of the system: one that cannot hold ends the search, and one that holds
    // wherever the base's rows do is left out.
    fn search_further(&self, alloc: Global, system: &Part) -> Result<Candidate, NoMemory> {
        let known = self.tableau.row_count();
        let count = system.row_count().saturating_sub(known);
        let Some(mut cells) = self.tableau.cells_with_rows(alloc, count)? else {
            return Ok(Candidate::Nothing);
        };
        let mut rows = self.tableau.row_variables(alloc, count)?;
        for k in 0..count {
            let i = known + k;
            let variable = value_of(system.kind(i), i);
            let place = rows.len();
            match self.state(&mut cells, place, &system.rows()[i]) {
                None => return Ok(Candidate::Nothing),
                Some(Said::Always) => cells.clear(place),
                Some(Said::Open) => rows.push(variable)?,
                Some(Said::Never) => {
                    let columns = self.tableau.column_variables();
                    let count = system.row_count();
                    return refute(alloc, variable, columns, cells.row(place), count);
                }
            }
        }
        if rows.len() == known {
            return point(alloc, &self.tableau);
        }
        let Some(mut tableau) = self.tableau.with_rows(alloc, cells, rows)? else {
            return Ok(Candidate::Nothing);
        };
        search_over(alloc, &mut tableau, known, system.row_count())
    }

    // Puts what a row of the system says of its variables into row `place`, where zeros stand, and answers
    // what it says of the columns. `None` where a cell passes 64 bits.
    fn state(&self, cells: &mut Matrix, place: usize, row: &PartRow) -> Option<Said>
        requires row { place < cells.old.rows }
        requires columns { 1 < cells.old.columns }
        ensures { cells.new ≡ cells.old }
    {
        let last = cells.columns() - 1;
        cells.set(place, last, 1);
        self.fill_row(cells, place, row.entries.as_slice())?;
        let columns = self.tableau.column_variables();
        Some(what_is_said(row.kind, columns, cells.row(place)))
    }

    // Puts what a row of the system says of its variables into row `place`, which says it of the columns.
    fn fill_row(&self, cells: &mut Matrix, place: usize, entries: &[Coeff]) -> Option<()>
        requires row { place < cells.old.rows }
        requires columns { 1 < cells.old.columns }
        ensures { cells.new ≡ cells.old }
    {
        let [factors @ .., constant] = entries else {
            return None;
        };
        for j in 0..factors.len() {
            if !factors[j].is_zero() {
                let standing = *self.standings.get(j)?;
                add_variable(cells, place, narrow(factors[j].value())?, standing)?;
            }
        }
        add_constant(cells, place, narrow(constant.value())?)
    }
}

// Where each variable of the system stands in the tableau.
fn standings(alloc: Global, tableau: &Tableau) -> Result<Vec<Standing>, NoMemory> {
    let mut made = vec![in alloc; Standing::Column(0); tableau.column_count()]?;
    for j in 0..tableau.column_count() {
        put(
            made.as_mut_slice(),
            tableau.column_variable(j),
            Standing::Column(j),
        );
    }
    for i in 0..tableau.row_count() {
        put(
            made.as_mut_slice(),
            tableau.row_variable(i),
            Standing::Row(i),
        );
    }
    Ok(made)
}

// Notes where a variable of the system stands.
fn put(standings: &mut [Standing], variable: Variable, standing: Standing) {
    if let Variable::Free(k) = variable {
        if k < standings.len() {
            standings[k] = standing;
        }
    }
}
