//! What is timed: the dependence systems of the matrix product, and those of many other nests.

ghost use Rattle.std.specs.Prelude.{◌<◌};

use crate::nests::{at_level, nest};
use crate::times::{Times, Totals, decision_times, reduction_time};
use elim_core::reduce;
use relation_core::Part;
use row_core::SparseRow;
use std::alloc::Global;
use std::test::Fail;
use std::time::Clock;

/// The times of a base's system at a level, each the mean of `rounds` many.
pub fn level_times(
    clock: &impl Clock,
    alloc: Global,
    base: &Part,
    level: usize,
    rounds: u32,
) -> Result<Times, Fail>
    requires level { level < 3 }
    requires rounds { 0 < rounds }
{
    let reduced = reduce::<SparseRow>(alloc, base)?;
    let system = at_level(alloc, base, level)?;
    decision_times(clock, alloc, &reduced, &system, rounds)
}

/// The times of one system of each of `count` nests.
pub fn nest_totals(clock: &impl Clock, alloc: Global, count: u64) -> Result<Totals, Fail> {
    let mut totals = Totals::default();
    for seed in 0..count {
        let base = nest(alloc, seed)?;
        let reduction = reduction_time(clock, alloc, &base, 1)?;
        let times = level_times(clock, alloc, &base, (seed % 3) as usize, 1)?;
        totals.add(reduction, &times);
    }
    Ok(totals)
}
