//! The numbers of variables and rows of a system, and of entries of a row.

ghost use Rattle.std.specs.Prelude.{◌≡◌, ◌<◌, ◌≤◌, ◌+◌, ◌^◌, length};
ghost use Rattle.relation_core.specs.Systems.{columns};
ghost use Rattle.elim_core.specs.Elimination.{started};
ghost use Rattle.elim_core.specs.RowLists.{AllRows, Wide};

use relation_core::Part;
use row_core::Row;

/// The number of variables.
pub fn variable_count(system: &Part) -> usize
    ensures value { result ≡ columns system.now.shape }
    ensures range { result ≤ 262144 }
{
    let _limits = system.shape();
    system.width() - 1
}

/// The number of rows, each of which has an entry for each variable and the constant.
pub fn row_count(system: &Part) -> usize
    ensures value { result ≡ length system.now.rows }
    ensures range { result < 2 ^ 63 }
    ensures wide { AllRows (Wide (columns system.now.shape + 1)) system.now.rows }
    ensures started { AllRows (Wide (columns system.now.shape + 1 + length system.now.rows)) (started system.now.rows) }
{
    let _form = system.row_count();
    system.rows().len()
}

/// The number of entries that are not 0.
pub fn entry_count<R: Row>(row: &R) -> usize
    ensures { result ≤ length (R.coefficients row.now) }
{
    let mut count = 0;
    let mut k = row.next_place(0, row.len());
    while k < row.len() {
        count += 1;
        k = row.next_place(k + 1, row.len());
    }
    count
}
