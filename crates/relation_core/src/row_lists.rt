//! Copies of lists of rows.

ghost use Rattle.std.specs.Prelude.{◌≡◌, ◌<◌, ◌≤◌, length, map, pos, insert, IfOk};
ghost use Rattle.relation_core.specs.Systems.{ReachTo, with_zero};

use crate::part_rows::PartRow;
use row_core::Coeff;
use std::alloc::Global;
use suite_base::NoMemory;

/// A copy of `rows`.
pub fn copied(alloc: Global, rows: &[PartRow]) -> Result<Vec<PartRow>, NoMemory>
    ensures { IfOk result (λ made. made.items ≡ rows.now) }
{
    let mut made = Vec::with_capacity(alloc, rows.len())?;
    for row in rows {
        made.push(row.copy(alloc)?)?;
    }
    Ok(made)
}

/// A copy of `rows` with a zero before place `k` of each, which is at most the length of each.
pub fn copied_with_zero(alloc: Global, rows: &[PartRow], k: usize) -> Result<Vec<PartRow>, NoMemory>
    requires { ReachTo k rows.now }
    ensures { IfOk result (λ made. made.items ≡ map (with_zero k) rows.now) }
{
    let mut made = Vec::with_capacity(alloc, rows.len())?;
    for i in 0..rows.len() {
        let mut row = rows[i].copy(alloc)?;
        row.entries.insert(k, Coeff::ZERO)?;
        made.push(row)?;
    }
    Ok(made)
}
