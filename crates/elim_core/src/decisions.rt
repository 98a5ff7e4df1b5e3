//! The decision whether a system has a rational point, exact both ways.

ghost use Rattle.std.specs.Prelude.{◌≡◌, ◌<◌, ◌≤◌, ◌+◌, ◌^◌, length, Some, IfOk, IfErr};
ghost use Rattle.relation_core.specs.Systems.{columns};
ghost use Rattle.farkas_cert.specs.Certificates.{Valid};
ghost use Rattle.elim_core.specs.RowLists.{AllRows, Wide};
ghost use Rattle.elim_core.specs.Peaks.{column_order, stated, peak, IsRight};
ghost use Rattle.suite_base.specs.Limits.{max_stage_rows};

use crate::counts::row_count;
use crate::orders::column_order;
use crate::phases::from_rows;
use crate::searches::search_checked;
use crate::starts::start;
use crate::verdicts::{ElimFail, Verdict};
use farkas_cert::{Certificate, TooHeavy, check};
use relation_core::Part;
use row_core::{DenseRow, Row};
use std::alloc::Global;

/// Decides `system` over dense rows, as `decide_by` does.
pub fn decide(alloc: Global, system: &Part) -> Result<Verdict, ElimFail>
    ensures right { IfOk result (λ verdict. IsRight system.now verdict) }
    ensures overflow { IfErr result (λ fail. fail ≡ ElimFail.Overflow → 2 ^ 127 ≤ (peak system.now).weight) }
    ensures rows { IfErr result (λ fail. fail ≡ ElimFail.TooManyRows → max_stage_rows < (peak system.now).rows) }
{
    decide_by::<DenseRow>(alloc, system)
}

/// Decides whether integers and a factor of at least 1 for the constants meet every row of
/// `system`: by the simplex method, whose answer is checked, and where that finds none, by the stated
/// elimination over rows of representation `R`. `HasPoint` comes only where they exist. `Empty` comes
/// only where none do, with a valid certificate for which `check` answers true. `Overflow` comes only
/// where the weight of the system's peak passes 2^127 - 1, and `TooManyRows` only where its row count
/// passes 16,384.
pub fn decide_by<R: Row>(alloc: Global, system: &Part) -> Result<Verdict, ElimFail>
    ensures right { IfOk result (λ verdict. IsRight system.now verdict) }
    ensures overflow { IfErr result (λ fail. fail ≡ ElimFail.Overflow → 2 ^ 127 ≤ (peak system.now).weight) }
    ensures rows { IfErr result (λ fail. fail ≡ ElimFail.TooManyRows → max_stage_rows < (peak system.now).rows) }
{
    match search_checked(alloc, system) {
        Err(_) => Err(ElimFail::Memory),
        Ok(Some(verdict)) => Ok(verdict),
        Ok(None) => decide_by_elimination::<R>(alloc, system),
    }
}

/// Decides `system` by the stated elimination alone, as `decide_by` does.
pub fn decide_by_elimination<R: Row>(alloc: Global, system: &Part) -> Result<Verdict, ElimFail>
    ensures right { IfOk result (λ verdict. IsRight system.now verdict) }
    ensures overflow { IfErr result (λ fail. fail ≡ ElimFail.Overflow → 2 ^ 127 ≤ (peak system.now).weight) }
    ensures rows { IfErr result (λ fail. fail ≡ ElimFail.TooManyRows → max_stage_rows < (peak system.now).rows) }
{
    match eliminate::<R>(alloc, system) {
        Err(fail) => Err(fail),
        Ok(None) => Ok(Verdict::HasPoint),
        Ok(Some(certificate)) => confirm(system, certificate),
    }
}

// The verdict of the certificate that the elimination ends with, where its check is not too heavy.
fn confirm(system: &Part, certificate: Certificate) -> Result<Verdict, ElimFail>
    requires valid { Valid (columns system.now.shape) system.now.rows certificate }
    requires found { (stated system.now).refutation ≡ Some certificate }
    ensures right { IfOk result (λ verdict. IsRight system.now verdict) }
    ensures overflow { IfErr result (λ fail. fail ≡ ElimFail.Overflow → 2 ^ 127 ≤ (peak system.now).weight) }
    ensures rows { IfErr result (λ fail. fail ≡ ElimFail.TooManyRows → max_stage_rows < (peak system.now).rows) }
{
    match check(system, &certificate) {
        Err(TooHeavy) => Err(ElimFail::Overflow),
        Ok(_) => Ok(Verdict::Empty(certificate)),
    }
}

// The certificate that the stated elimination ends with, if any.
fn eliminate<R: Row>(alloc: Global, system: &Part) -> Result<Option<Certificate>, ElimFail>
    ensures ok { IfOk result (λ found. found ≡ (stated system.now).refutation) }
    ensures wide { AllRows (Wide (columns system.now.shape + 1)) system.now.rows }
    ensures overflow { IfErr result (λ fail. fail ≡ ElimFail.Overflow → 2 ^ 127 ≤ (stated system.now).weight) }
    ensures rows { IfErr result (λ fail. fail ≡ ElimFail.TooManyRows → max_stage_rows < (stated system.now).count) }
{
    let count = row_count(system);
    let columns = column_order(alloc, system)?;
    let tableau = start::<R>(alloc, system)?;
    from_rows(alloc, columns.as_slice(), count, tableau)
}
