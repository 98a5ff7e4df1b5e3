//! The levels at which new schedules can put the target of a dependence before its source.

ghost use Rattle.std.specs.Prelude.{◌≡◌, ◌++◌, IfOk, OnOk};
ghost use Rattle.std.specs.List.{range_with_len};
ghost use Rattle.scop_core.specs.LevelOrder.{levels_between};

use dependence_systems::level_tests::{count_common, is_before_in_text};
use row_core::Coeff;
use std::alloc::Global;
use suite_base::{List, NoMemory};

// The levels of the loops in common.
fn levels_upto(alloc: Global, common: usize) -> Result<List<usize>, NoMemory>
    ensures { IfOk result (λ levels. levels ≡ range_with_len 1 common) }
{
    let mut levels = List::new(alloc);
    for k in 0..common {
        levels.push(k + 1)?;
    }
    Ok(levels)
}

/// The levels between two beta vectors: those of the loops in common, then 0 where the first vector
/// stands before the second one in the text.
pub fn levels_of(alloc: Global, p: &[Coeff], q: &[Coeff]) -> Result<List<usize>, NoMemory>
    ensures { IfOk result (λ levels. levels ≡ levels_between p.now q.now) }
{
    let mut levels = levels_upto(alloc, count_common(p, q))?;
    if is_before_in_text(p, q) {
        levels.push(0)?;
    }
    Ok(levels)
}
