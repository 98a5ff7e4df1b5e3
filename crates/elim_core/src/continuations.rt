//! The decision of a system whose rows begin with those of a reduced base.

ghost use Rattle.std.specs.Prelude.{◌≡◌, ◌<◌, ◌≤◌, ◌+◌, ◌^◌, IfOk, IfErr};
ghost use Rattle.relation_core.specs.Systems.{columns};
ghost use Rattle.farkas_cert.specs.Certificates.{Valid};
ghost use Rattle.elim_core.specs.Peaks.{peak, IsRight};
ghost use Rattle.elim_core.specs.Reductions.{BeginsWith, Settles};
ghost use Rattle.suite_base.specs.Limits.{max_stage_rows};

use crate::decisions::decide_by_elimination;
use crate::orders::column_order;
use crate::phases::from_rows;
use crate::reductions::Reduced;
use crate::verdicts::{ElimFail, Verdict};
use farkas_cert::{Certificate, check};
use relation_core::Part;
use row_core::Row;
use std::alloc::Global;

/// Decides `system` as `decide_by` does, but the simplex method goes on from where it has ended for the first
/// rows, and the elimination begins with the reduced rows of these. The system has the base's shape, and its
/// rows begin with the base's. Where this way passes 2^127 - 1 or 16,384 rows, it falls back to the stated
/// elimination of the whole system.
pub fn decide_with<R: Row>(
    alloc: Global,
    shared: &Reduced<R>,
    system: &Part,
) -> Result<Verdict, ElimFail>
    requires { BeginsWith system.now shared.now }
    ensures right { IfOk result (λ verdict. IsRight system.now verdict) }
    ensures overflow { IfErr result (λ fail. fail ≡ ElimFail.Overflow → 2 ^ 127 ≤ (peak system.now).weight) }
    ensures rows { IfErr result (λ fail. fail ≡ ElimFail.TooManyRows → max_stage_rows < (peak system.now).rows) }
{
    match shared.search(alloc, system) {
        Err(_) => Err(ElimFail::Memory),
        Ok(Some(verdict)) => Ok(verdict),
        Ok(None) => decide_from_base(alloc, shared, system),
    }
}

// Decides `system` by the elimination that begins with the reduced rows.
fn decide_from_base<R: Row>(
    alloc: Global,
    shared: &Reduced<R>,
    system: &Part,
) -> Result<Verdict, ElimFail>
    requires { BeginsWith system.now shared.now }
    ensures right { IfOk result (λ verdict. IsRight system.now verdict) }
    ensures overflow { IfErr result (λ fail. fail ≡ ElimFail.Overflow → 2 ^ 127 ≤ (peak system.now).weight) }
    ensures rows { IfErr result (λ fail. fail ≡ ElimFail.TooManyRows → max_stage_rows < (peak system.now).rows) }
{
    match go_on(alloc, shared, system) {
        Ok(None) => Ok(Verdict::HasPoint),
        Ok(Some(certificate)) => accept::<R>(alloc, system, certificate),
        Err(ElimFail::Memory) => Err(ElimFail::Memory),
        Err(_) => decide_by_elimination::<R>(alloc, system),
    }
}

// The verdict of a valid certificate, where its check is not too heavy.
fn accept<R: Row>(
    alloc: Global,
    system: &Part,
    certificate: Certificate,
) -> Result<Verdict, ElimFail>
    requires { Valid (columns system.now.shape) system.now.rows certificate }
    ensures right { IfOk result (λ verdict. IsRight system.now verdict) }
    ensures overflow { IfErr result (λ fail. fail ≡ ElimFail.Overflow → 2 ^ 127 ≤ (peak system.now).weight) }
    ensures rows { IfErr result (λ fail. fail ≡ ElimFail.TooManyRows → max_stage_rows < (peak system.now).rows) }
{
    match check(system, &certificate) {
        Ok(_) => Ok(Verdict::Empty(certificate)),
        Err(_) => decide_by_elimination::<R>(alloc, system),
    }
}

// What the elimination finds that begins with the reduced rows.
fn go_on<R: Row>(
    alloc: Global,
    shared: &Reduced<R>,
    system: &Part,
) -> Result<Option<Certificate>, ElimFail>
    requires { BeginsWith system.now shared.now }
    ensures { IfOk result (λ found. Settles system.now found) }
{
    let columns = column_order(alloc, system)?;
    let tableau = shared.join(alloc, system)?;
    let most = tableau.row_count();
    from_rows(alloc, columns.as_slice(), most, tableau)
}
