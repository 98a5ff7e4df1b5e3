//! Combinations of sparse rows: a merge of their entries.

ghost use Rattle.std.specs.Prelude.{◌≡◌, ◌<◌, ◌≤◌, ◌+◌, ◌-◌, ◌^◌, ◌++◌, pos, length, replicate, IfOk, IfErr, OnOk};
ghost use Rattle.row_core.specs.Rows.{combined, combined_weight, IsHeavy};
ghost use Rattle.row_core.specs.Sparse.{Begins};

use crate::arithmetic::{RowFail, combine_one};
use crate::coeffs::Coeff;
use crate::sparse_entries::{Rest, first_place, take_at};
use crate::sparse_rows::SparseRow;
use std::alloc::Global;

/// The row `p a + q b`, column by column; as `combine` of dense rows. Only the columns in which a row has
/// an entry take time.
pub fn combine_sparse(
    alloc: Global,
    p: Coeff,
    a: &SparseRow,
    q: Coeff,
    b: &SparseRow,
) -> Result<SparseRow, RowFail>
    requires { length a.now ≡ length b.now }
    ensures ok { IfOk result (λ row. row ≡ combined p a.now q b.now) }
    ensures fits { OnOk result (¬ IsHeavy p a.now q b.now) }
    ensures overflow { IfErr result (λ fail. fail ≡ RowFail.Overflow → IsHeavy p a.now q b.now) }
    ensures light { OnOk result (combined_weight p a.now q b.now < 2 ^ 127) }
    ensures heavy { IfErr result (λ fail. fail ≡ RowFail.Overflow → 2 ^ 127 ≤ combined_weight p a.now q b.now) }
{
    let room = a.entries().len().saturating_add(b.entries().len());
    let Ok(mut row) = SparseRow::with_capacity(alloc, room) else {
        return Err(RowFail::Memory);
    };
    let mut left = Rest {
        entries: a.entries(),
    };
    let mut right = Rest {
        entries: b.entries(),
    };
    let mut k = pass_zeros(&mut row, &left, &right, a.len());
    while k < a.len() {
        let x = take_at(&mut left, k);
        let y = take_at(&mut right, k);
        match combine_one(p, x, q, y) {
            None => return Err(RowFail::Overflow),
            Some(entry) => {
                if row.push(entry).is_err() {
                    return Err(RowFail::Memory);
                }
            }
        }
        k = pass_zeros(&mut row, &left, &right, a.len());
    }
    Ok(row)
}

// Appends zeros up to the first entry of either rest, or up to `end`, and answers how long the row is then.
fn pass_zeros(row: &mut SparseRow, left: &Rest<'_>, right: &Rest<'_>, end: usize) -> usize
    requires room { length row.old ≤ end }
    requires left { Begins (length row.old) left.now.entries.now }
    requires right { Begins (length row.old) right.now.entries.now }
    ensures row { row.new ≡ row.old ++ replicate (result - length row.old) (pos 0) }
    ensures more { length row.old ≤ result }
    ensures range { result ≤ end }
    ensures left { Begins result left.now.entries.now }
    ensures right { Begins result right.now.entries.now }
{
    let len = row.len();
    let place = first_place(left, len, end).min(first_place(right, len, end));
    row.push_zeros(place - len);
    place
}
