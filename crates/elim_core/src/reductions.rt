//! The reduction of rows that several systems share: their equalities are substituted once.

ghost use Rattle.std.specs.Prelude.{◌≡◌, ◌<◌, ◌≤◌, ◌+◌, length, map, IfOk, IfSome};
ghost use Rattle.relation_core.specs.Systems.{columns};
ghost use Rattle.elim_core.specs.Peaks.{IsRight};
ghost use Rattle.elim_core.specs.Reductions.{BeginsWith, IsReduction, Relieved, widened};
ghost use Rattle.elim_core.specs.Tableaux.{with_rows, ReducesTo};

use crate::counts::{row_count, variable_count};
use crate::normalising::normalise;
use crate::refutations::find_contradiction;
use crate::searches::{search_checked, search_from};
use crate::starts::{start, start_from};
use crate::substitutions::{substitute_copies, take_equality};
use crate::tableaux::Tableau;
use crate::verdicts::{ElimFail, Verdict};
use crate::working_rows::{WorkingRow, is_constant, last_variable};
use relation_core::Part;
use row_core::Row;
use simplex_core::WarmStart;
use std::alloc::Global;
use std::marker::Model;
use suite_base::NoMemory;

/// A base that the simplex method has searched, and whose equalities are substituted, so that the systems
/// whose rows begin with the base's need not do it again. Contracts see the base.
#[derive(Drop)]
pub struct Reduced<R: Row> {
    base: Part,
    // where the simplex method has ended for the base, unless it gave up
    warm: Option<WarmStart>,
    rows: Vec<WorkingRow<R>>,
}

impl<R: Row> Model for Reduced<R> {
    ghost use Rattle.relation_core.specs.Systems.{System, columns};
    ghost use Rattle.elim_core.specs.Reductions.{IsReduction};

    ghost Value = { System };

    ghost view = { λ shared. shared.base };

    ghost invariant = { λ shared. IsReduction (columns shared.base.shape) shared.base.rows shared.rows.items };
}

impl<R: Row> Reduced<R> {
    /// The verdict that the simplex method finds for a system whose rows begin with the base's; `None`
    /// where it finds nothing, or where the check does not accept what it has found.
    pub(crate) fn search(&self, alloc: Global, system: &Part) -> Result<Option<Verdict>, NoMemory>
        ensures { IfOk result (λ found. IfSome found (λ verdict. IsRight system.now verdict)) }
    {
        match &self.warm {
            Some(warm) => search_from(alloc, warm, system),
            None => search_checked(alloc, system),
        }
    }

    /// The working rows of a system whose rows begin with the base's: those that the base is reduced
    /// to, and the further rows of the system.
    pub(crate) fn join(&self, alloc: Global, system: &Part) -> Result<Tableau<R>, NoMemory>
        requires { BeginsWith system.now self.now }
        ensures variables { IfOk result (λ tableau. tableau.variables ≡ columns system.now.shape) }
        ensures rows { IfOk result (λ tableau. IsReduction (columns system.now.shape) system.now.rows tableau.rows) }
    {
        let n = variable_count(system);
        let count = row_count(system);
        let rows = self.joined_rows(alloc, system)?;
        Ok(Tableau::new(n, n + 1 + count, rows))
    }

    // The rows of `join`.
    fn joined_rows(&self, alloc: Global, system: &Part) -> Result<Vec<WorkingRow<R>>, NoMemory>
        requires { BeginsWith system.now self.now }
        ensures { IfOk result (λ rows. IsReduction (columns system.now.shape) system.now.rows rows.items) }
    {
        let known = self.base.row_count();
        let mut rows = widen(alloc, system.row_count() - known, self.rows.as_slice())?;
        start_from(alloc, system, known, &mut rows)?;
        Ok(rows)
    }
}

// The rows with `count` multipliers more, which are 0.
fn widen<R: Row>(
    alloc: Global,
    count: usize,
    rows: &[WorkingRow<R>],
) -> Result<Vec<WorkingRow<R>>, NoMemory>
    ensures { IfOk result (λ made. made.items ≡ map (widened count) rows.now) }
{
    let mut made = Vec::with_capacity(alloc, rows.len())?;
    for w in rows {
        let wide = w.widened(alloc, count)?;
        made.push(wide)?;
    }
    Ok(made)
}

/// Substitutes the equalities of `base` in its other rows, by `combine` of `R`. An equality whose
/// substitution would pass 2^127 - 1 is left as it is, so that only memory can be wanting.
pub fn reduce<R: Row>(alloc: Global, base: &Part) -> Result<Reduced<R>, NoMemory>
    ensures { IfOk result (λ shared. shared ≡ base.now) }
{
    let _rows = row_count(base);
    let started = start::<R>(alloc, base)?;
    let relieved = relieve_all(alloc, started)?;
    let reduced = normalise_sound(alloc, relieved)?;
    let warm = WarmStart::new(alloc, base)?;
    let base = base.copy(alloc)?;
    Ok(Reduced {
        base,
        warm,
        rows: reduced.into_rows(),
    })
}

// The rows that have variables, pruned; the same rows where one of them is a contradiction.
fn normalise_sound<R: Row>(alloc: Global, tableau: Tableau<R>) -> Result<Tableau<R>, NoMemory>
    ensures { IfOk result (λ made. ReducesTo tableau made) }
{
    match find_contradiction(&tableau) {
        Some(_) => Ok(tableau),
        None => {
            let kept = normalise(alloc, tableau)?;
            Ok(kept)
        }
    }
}

// The rows after each equality is substituted in the rows that no earlier one has left behind. The
// equalities stay, before the other rows.
fn relieve_all<R: Row>(alloc: Global, tableau: Tableau<R>) -> Result<Tableau<R>, NoMemory>
    ensures { IfOk result (λ made. ReducesTo tableau made) }
{
    let n = tableau.variables();
    let width = tableau.width();
    let mut done = Vec::new(alloc);
    let mut rest = tableau;
    while let Some(e) = take_equality(&mut rest) {
        rest = relieve(alloc, &e, rest)?;
        done.push(e)?;
    }
    done.append(&mut rest.into_rows())?;
    Ok(Tableau::new(n, width, done))
}

// The rows after an equality is substituted in them; the same rows where it has no variable, or where
// the substitution would pass 2^127 - 1.
fn relieve<R: Row>(
    alloc: Global,
    e: &WorkingRow<R>,
    tableau: Tableau<R>,
) -> Result<Tableau<R>, NoMemory>
    requires { length e.now.entries ≡ tableau.width }
    ensures same { IfOk result (λ made. made ≡ with_rows tableau made.rows) }
    ensures rows { IfOk result (λ made. Relieved tableau.variables e.now tableau.rows made.rows) }
{
    let n = tableau.variables();
    if is_constant(e, n) {
        return Ok(tableau);
    }
    match substitute_copies(alloc, last_variable(e, n), e, &tableau) {
        Ok(made) => Ok(made),
        Err(ElimFail::Memory) => Err(NoMemory),
        Err(_) => Ok(tableau),
    }
}
