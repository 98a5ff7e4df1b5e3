//! The order of its original over the floors of an edited statement.

ghost use Rattle.std.specs.Prelude.{◌≡◌, map, IfOk};
ghost use Rattle.legality.specs.Mixed.{padded, mixed};

use row_core::DenseRow;
use scop_core::{Affine, Schedule};
use scop_data::copies::{copied_coeffs, copied_floors};
use std::alloc::Global;
use suite_base::{List, NoMemory};

// The value with coefficients of `count` floors: the missing ones are 0.
fn padded_value(alloc: Global, value: &Affine, count: usize) -> Result<Affine, NoMemory>
    ensures { IfOk result (λ made. made ≡ padded count value.now) }
{
    let given = value.floors();
    let mut floors = DenseRow::from_coeffs(alloc, given)?;
    floors.push_zeros(count.saturating_sub(given.len()))?;
    Affine::new(
        alloc,
        value.iterators(),
        floors.as_slice(),
        value.parameters(),
        value.constant(),
    )
}

// The same of each of these values.
fn padded_values(alloc: Global, values: &[Affine], count: usize) -> Result<List<Affine>, NoMemory>
    ensures { IfOk result (λ made. made ≡ map (padded count) values.now) }
{
    let mut made = List::new(alloc);
    for value in values {
        made.push(padded_value(alloc, value, count)?)?;
    }
    Ok(made)
}

/// The betas and levels of `old` over the floors of `now`, which begin with those of `old`.
pub fn mixed_schedule(alloc: Global, old: &Schedule, now: &Schedule) -> Result<Schedule, NoMemory>
    ensures { IfOk result (λ made. made ≡ mixed old.now now.now) }
{
    Ok(Schedule {
        floors: copied_floors(alloc, now.floors.as_slice())?,
        levels: padded_values(alloc, old.levels.as_slice(), now.floors.len())?,
        betas: copied_coeffs(alloc, old.betas.as_slice())?,
    })
}
