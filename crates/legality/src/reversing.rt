//! The rows of a level at which new schedules put the target of a dependence before its source.

ghost use Rattle.std.specs.Prelude.{◌≡◌, ◌≤◌, ◌<◌, ◌^◌, ◌++◌, length, OnOk, IfErr};
ghost use Rattle.scop_core.specs.LevelOrder.{IsLevel};
ghost use Rattle.dependence_systems.specs.Fits.{SchedulesFit};
ghost use Rattle.dependence_systems.specs.Systems.{shape_with};
ghost use Rattle.legality.specs.Reversals.{reversed_rows, reversed_weight};

use dependence_systems::level_rows::{push_equal_levels, push_greater_level};
use dependence_systems::level_tests::count_common;
use dependence_systems::widths::Widths;
use relation_core::Part;
use row_core::RowFail;
use scop_core::Schedule;

/// Appends the rows of `level`, one of the levels between the target's beta vector and the source's.
/// Overflow comes exactly where an entry of one of them has summands whose absolute values sum above
/// 2^127 - 1.
pub fn push_reversed(
    part: &mut Part,
    w: &Widths,
    source: &Schedule,
    target: &Schedule,
    level: usize,
) -> Result<(), RowFail>
    requires columns { part.old.shape ≡ shape_with w.now part.old.shape.parameters }
    requires fits { SchedulesFit w.now part.old.shape.parameters source.now target.now }
    requires level { IsLevel target.now.betas source.now.betas level }
    ensures shape { part.new.shape ≡ part.old.shape }
    ensures rows { OnOk result (part.new.rows ≡ part.old.rows ++ reversed_rows w.now source.now target.now level) }
    ensures light { OnOk result (reversed_weight source.now target.now level < 2 ^ 127) }
    ensures heavy { IfErr result (λ fail. fail ≡ RowFail.Overflow → 2 ^ 127 ≤ reversed_weight source.now target.now level) }
{
    let sources = source.levels.as_slice();
    let targets = target.levels.as_slice();
    if level == 0 {
        let common = count_common(target.betas.as_slice(), source.betas.as_slice());
        push_equal_levels(part, w, sources, targets, common)
    } else {
        push_equal_levels(part, w, sources, targets, level - 1)?;
        push_greater_level(part, w, sources, targets, level - 1)
    }
}
