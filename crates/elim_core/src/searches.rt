//! The verdict that two rows, a point at hand, one near it or the simplex method gives, once a check has accepted it.

ghost use Rattle.std.specs.Prelude.{IfOk, IfSome};
ghost use Rattle.elim_core.specs.Peaks.{IsRight};

use crate::opposed_rows::opposed_rows;
use crate::repairs::repair;
use crate::verdicts::Verdict;
use farkas_cert::{Certificate, check, check_point};
use relation_core::Part;
use row_core::Coeff;
use simplex_core::{Candidate, WarmStart, search};
use std::alloc::Global;
use suite_base::NoMemory;

/// Searches of systems one after the other: a point found for one is tried first for those that follow, as it is and
/// repaired.
#[derive(Drop)]
pub struct Search {
    // the last point found, or nothing
    point: Vec<Coeff>,
}

impl Search {
    /// A search that has found nothing yet.
    pub fn new(alloc: Global) -> Search {
        Search {
            point: Vec::new(alloc),
        }
    }

    /// The verdict that `search_checked` finds for `system`, or that the last point gives it, as it is or repaired.
    pub fn search(&mut self, alloc: Global, system: &Part) -> Result<Option<Verdict>, NoMemory>
        ensures { IfOk result (λ found. IfSome found (λ verdict. IsRight system.now verdict)) }
    {
        if let Some(verdict) = accept_opposed(alloc, system)? {
            return Ok(Some(verdict));
        }
        if let Some(verdict) = accept_point(system, self.point.as_slice()) {
            return Ok(Some(verdict));
        }
        if let Some(verdict) = self.search_nearby(alloc, system)? {
            return Ok(Some(verdict));
        }
        match search(alloc, system)? {
            Candidate::Point(point) => {
                let found = accept_point(system, point.as_slice());
                self.point = point;
                Ok(found)
            }
            Candidate::Refutation(certificate) => Ok(accept_refutation(system, certificate)),
            Candidate::Nothing => Ok(None),
        }
    }

    // The verdict of the last point, or else of the origin, once it is repaired.
    fn search_nearby(&mut self, alloc: Global, system: &Part) -> Result<Option<Verdict>, NoMemory>
        ensures { IfOk result (λ found. IfSome found (λ verdict. IsRight system.now verdict)) }
    {
        if self.point.len() != system.width() {
            self.point = origin(alloc, system.width())?;
        }
        match repair(system, self.point.as_mut_slice()) {
            Some(()) => Ok(accept_point(system, self.point.as_slice())),
            None => Ok(None),
        }
    }
}

// The point of so many entries whose columns are 0.
fn origin(alloc: Global, width: usize) -> Result<Vec<Coeff>, NoMemory> {
    let mut point = vec![in alloc; Coeff::ZERO; width]?;
    if let [.., denominator] = point.as_mut_slice() {
        *denominator = Coeff::ONE;
    }
    Ok(point)
}

/// The verdict that two opposed rows, the repaired origin or the simplex method gives for `system`; `None`
/// where none of them finds anything, or where the check does not accept what was found.
pub fn search_checked(alloc: Global, system: &Part) -> Result<Option<Verdict>, NoMemory>
    ensures { IfOk result (λ found. IfSome found (λ verdict. IsRight system.now verdict)) }
{
    match look(alloc, system)? {
        Some(verdict) => Ok(Some(verdict)),
        None => Ok(accepted(system, search(alloc, system)?)),
    }
}

/// As `search_checked`, but the search goes on from that of the first rows.
pub fn search_from(
    alloc: Global,
    warm: &WarmStart,
    system: &Part,
) -> Result<Option<Verdict>, NoMemory>
    ensures { IfOk result (λ found. IfSome found (λ verdict. IsRight system.now verdict)) }
{
    match look(alloc, system)? {
        Some(verdict) => Ok(Some(verdict)),
        None => Ok(accepted(system, warm.search(alloc, system)?)),
    }
}

// The verdict that two opposed rows or the repaired origin gives.
fn look(alloc: Global, system: &Part) -> Result<Option<Verdict>, NoMemory>
    ensures { IfOk result (λ found. IfSome found (λ verdict. IsRight system.now verdict)) }
{
    match accept_opposed(alloc, system)? {
        Some(verdict) => Ok(Some(verdict)),
        None => Search::new(alloc).search_nearby(alloc, system),
    }
}

// The verdict of two rows that contradict each other, where the check accepts it.
fn accept_opposed(alloc: Global, system: &Part) -> Result<Option<Verdict>, NoMemory>
    ensures { IfOk result (λ found. IfSome found (λ verdict. IsRight system.now verdict)) }
{
    match opposed_rows(alloc, system)? {
        Some(certificate) => Ok(accept_refutation(system, certificate)),
        None => Ok(None),
    }
}

// The verdict of what a search has found, where the check accepts it.
fn accepted(system: &Part, candidate: Candidate) -> Option<Verdict>
    ensures { IfSome result (λ verdict. IsRight system.now verdict) }
{
    match candidate {
        Candidate::Point(point) => accept_point(system, point.as_slice()),
        Candidate::Refutation(certificate) => accept_refutation(system, certificate),
        Candidate::Nothing => None,
    }
}

// The verdict of a point at which every row holds.
fn accept_point(system: &Part, point: &[Coeff]) -> Option<Verdict>
    ensures { IfSome result (λ verdict. IsRight system.now verdict) }
{
    match check_point(system, point) {
        Ok(true) => Some(Verdict::HasPoint),
        _ => None,
    }
}

// The verdict of a valid certificate.
fn accept_refutation(system: &Part, certificate: Certificate) -> Option<Verdict>
    ensures { IfSome result (λ verdict. IsRight system.now verdict) }
{
    match check(system, &certificate) {
        Ok(true) => Some(Verdict::Empty(certificate)),
        _ => None,
    }
}
