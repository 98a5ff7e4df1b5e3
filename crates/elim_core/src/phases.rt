//! The two phases of the elimination: the equalities are substituted in turn, then the columns are
//! projected in turn. After each step a contradiction ends it, and else the rows are normalised.

ghost use Rattle.std.specs.Prelude.{◌≡◌, ◌<◌, ◌≤◌, ◌^◌, length, remove, IfOk, IfErr};
ghost use Rattle.relation_core.specs.Systems.{row_at};
ghost use Rattle.elim_core.specs.Elimination.{without_equality, without, without_weight, from_columns, from_equalities, from_rows, Below};
ghost use Rattle.elim_core.specs.Tableaux.{with_rows};
ghost use Rattle.suite_base.specs.Limits.{max_stage_rows};

use crate::normalising::normalise;
use crate::projections::project;
use crate::refutations::refutation;
use crate::substitutions::{find_equality, substitute};
use crate::tableaux::Tableau;
use crate::verdicts::ElimFail;
use crate::working_rows::last_variable;
use farkas_cert::Certificate;
use row_core::Row;
use std::alloc::Global;

/// Normalises, substitutes the equalities, at most `most` of them, and then projects `columns`.
pub fn from_rows<R: Row>(
    alloc: Global,
    columns: &[usize],
    most: usize,
    tableau: Tableau<R>,
) -> Result<Option<Certificate>, ElimFail>
    requires { Below tableau.variables columns.now }
    ensures ok { IfOk result (λ found. found ≡ (from_rows tableau.variables columns.now most tableau.rows).refutation) }
    ensures overflow { IfErr result (λ fail. fail ≡ ElimFail.Overflow
        → 2 ^ 127 ≤ (from_rows tableau.variables columns.now most tableau.rows).weight) }
    ensures rows { IfErr result (λ fail. fail ≡ ElimFail.TooManyRows
        → max_stage_rows < (from_rows tableau.variables columns.now most tableau.rows).count) }
{
    match refutation(alloc, &tableau)? {
        Some(certificate) => return Ok(Some(certificate)),
        None => {}
    }
    let normalised = normalise(alloc, tableau)?;
    from_equalities(alloc, columns, most, normalised)
}

// Substitutes the equalities, at most `most` of them, and then projects `columns`.
fn from_equalities<R: Row>(
    alloc: Global,
    columns: &[usize],
    most: usize,
    tableau: Tableau<R>,
) -> Result<Option<Certificate>, ElimFail>
    requires { Below tableau.variables columns.now }
    ensures ok { IfOk result (λ found. found ≡ (from_equalities tableau.variables columns.now most tableau.rows).refutation) }
    ensures overflow { IfErr result (λ fail. fail ≡ ElimFail.Overflow
        → 2 ^ 127 ≤ (from_equalities tableau.variables columns.now most tableau.rows).weight) }
    ensures rows { IfErr result (λ fail. fail ≡ ElimFail.TooManyRows
        → max_stage_rows < (from_equalities tableau.variables columns.now most tableau.rows).count) }
{
    let mut tableau = tableau;
    let mut left = most;
    while left > 0 {
        let Some(k) = find_equality(&tableau) else {
            return from_columns(alloc, columns, tableau);
        };
        left -= 1;
        let made = substitute_at(alloc, k, tableau)?;
        match refutation(alloc, &made)? {
            Some(certificate) => return Ok(Some(certificate)),
            None => {}
        }
        tableau = normalise(alloc, made)?;
    }
    from_columns(alloc, columns, tableau)
}

// The rows after the first equality, which stands at `k`, is substituted.
fn substitute_at<R: Row>(
    alloc: Global,
    k: usize,
    tableau: Tableau<R>,
) -> Result<Tableau<R>, ElimFail>
    requires place { k < length tableau.rows }
    requires rest { without_equality tableau.rows ≡ remove tableau.rows k }
    ensures ok { IfOk result (λ made. made ≡ with_rows tableau (without tableau.variables (row_at tableau.rows k) tableau.rows)) }
    ensures overflow { IfErr result (λ fail. fail ≡ ElimFail.Overflow
        → 2 ^ 127 ≤ without_weight tableau.variables (row_at tableau.rows k) tableau.rows) }
    ensures rows { IfErr result (λ fail. ¬ (fail ≡ ElimFail.TooManyRows)) }
{
    let mut others = tableau;
    let e = others.take(k);
    let j = last_variable(&e, others.variables());
    substitute(alloc, j, &e, others)
}

// Projects `columns` in turn.
fn from_columns<R: Row>(
    alloc: Global,
    columns: &[usize],
    tableau: Tableau<R>,
) -> Result<Option<Certificate>, ElimFail>
    requires { Below tableau.variables columns.now }
    ensures ok { IfOk result (λ found. found ≡ (from_columns tableau.variables columns.now tableau.rows).refutation) }
    ensures overflow { IfErr result (λ fail. fail ≡ ElimFail.Overflow
        → 2 ^ 127 ≤ (from_columns tableau.variables columns.now tableau.rows).weight) }
    ensures rows { IfErr result (λ fail. fail ≡ ElimFail.TooManyRows
        → max_stage_rows < (from_columns tableau.variables columns.now tableau.rows).count) }
{
    let mut tableau = tableau;
    for j in columns {
        let made = project(alloc, *j, tableau)?;
        if let Some(certificate) = refutation(alloc, &made)? {
            return Ok(Some(certificate));
        }
        tableau = normalise(alloc, made)?;
    }
    Ok(None)
}
