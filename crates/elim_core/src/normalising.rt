//! The rows that stay after a step: those that have variables, pruned.

ghost use Rattle.std.specs.Prelude.{◌≡◌, length, IfOk};
ghost use Rattle.elim_core.specs.Elimination.{normalised};
ghost use Rattle.elim_core.specs.Pruning.{marked};
ghost use Rattle.elim_core.specs.RowLists.{AllRows, Wide};
ghost use Rattle.elim_core.specs.Tableaux.{with_rows};

use crate::pruning::mark;
use crate::tableaux::Tableau;
use row_core::Row;
use std::alloc::Global;
use suite_base::NoMemory;

/// The rows that have variables, pruned.
pub fn normalise<R: Row>(alloc: Global, tableau: Tableau<R>) -> Result<Tableau<R>, NoMemory>
    ensures { IfOk result (λ kept. kept ≡ with_rows tableau (normalised tableau.variables tableau.rows)) }
{
    let stays = mark(alloc, &tableau)?;
    keep_marked(alloc, tableau, stays.as_slice())
}

// The rows that are marked to stay.
fn keep_marked<R: Row>(
    alloc: Global,
    tableau: Tableau<R>,
    stays: &[bool],
) -> Result<Tableau<R>, NoMemory>
    requires { length stays.now ≡ length tableau.rows }
    ensures { IfOk result (λ kept. kept ≡ with_rows tableau (marked tableau.rows stays.now)) }
{
    let n = tableau.variables();
    let width = tableau.width();
    let mut kept = Vec::with_capacity(alloc, tableau.row_count())?;
    let mut k = 0;
    for w in tableau.into_rows() {
        if stays[k] {
            kept.push(w)?;
        }
        k += 1;
    }
    Ok(Tableau::new(n, width, kept))
}
