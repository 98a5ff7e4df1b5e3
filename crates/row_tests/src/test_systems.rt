//! Systems that the tests make, and what each way to decide them has to answer.

ghost use Rattle.std.specs.Prelude.{IfOk};
ghost use Rattle.elim_core.specs.Reductions.{BeginsWith};

use crate::values::push;
use elim_core::{ElimFail, Verdict, decide, decide_by, decide_with, reduce};
use farkas_cert::{check, check_point};
use relation_core::{Part, RowKind, Shape};
use row_core::{DenseRow, Row, SparseRow};
use simplex_core::{Candidate, search};
use std::alloc::Global;
use std::process::Abort;
use std::test::Fail;

/// The outcome that a decision has to have.
#[derive(Clone, Copy, Debug, PartialEq, Eq)]
pub enum Wanted {
    Point,
    Empty,
    Overflow,
    TooManyRows,
}

/// The system without rows of at most eight outputs and eight inputs.
pub fn columns(alloc: Global, outputs: usize, inputs: usize) -> Part {
    let outputs = if outputs < 8 { outputs } else { 8 };
    let inputs = if inputs < 8 { inputs } else { 8 };
    let shape = Shape {
        outputs,
        inputs,
        locals: 0,
        parameters: 0,
    };
    Part::new(alloc, shape)
}

/// A system and one row more.
pub fn followed(rt: &impl Abort, base: &Part, kind: RowKind, values: &[i128]) -> Result<Part, Fail>
    ensures { IfOk result (λ system. BeginsWith system base.now) }
{
    let mut system = Part::new(base.allocator(), base.shape());
    system.conjoin(base)?;
    push(rt, &mut system, kind, values)?;
    Ok(system)
}

/// The outcome of a decision; `check` accepts each certificate.
pub fn outcome(
    rt: &impl Abort,
    system: &Part,
    decided: Result<Verdict, ElimFail>,
) -> Result<Wanted, Fail> {
    match decided {
        Ok(Verdict::HasPoint) => Ok(Wanted::Point),
        Ok(Verdict::Empty(certificate)) => {
            assert_eq!(rt; check(system, &certificate), Ok(true));
            Ok(Wanted::Empty)
        }
        Err(ElimFail::Overflow) => Ok(Wanted::Overflow),
        Err(ElimFail::TooManyRows) => Ok(Wanted::TooManyRows),
        Err(ElimFail::Memory) => panic!(rt; "memory is wanting"),
    }
}

/// Whether the simplex method finds what a check accepts.
pub fn is_found(system: &Part) -> Result<bool, Fail> {
    let candidate = search(system.allocator(), system)?;
    Ok(is_accepted(system, &candidate))
}

/// Whether a check accepts what a search has found.
pub fn is_accepted(system: &Part, candidate: &Candidate) -> bool {
    match candidate {
        Candidate::Point(point) => check_point(system, point.as_slice()) == Ok(true),
        Candidate::Refutation(certificate) => check(system, certificate) == Ok(true),
        Candidate::Nothing => false,
    }
}

/// Each way to decide a system has this outcome.
pub fn answers(rt: &impl Abort, system: &Part, wanted: Wanted) -> Result<(), Fail> {
    let alloc = system.allocator();
    assert_eq!(rt; outcome(rt, system, decide(alloc, system))?, wanted);
    let dense = decide_by::<DenseRow>(alloc, system);
    assert_eq!(rt; outcome(rt, system, dense)?, wanted);
    let sparse = decide_by::<SparseRow>(alloc, system);
    assert_eq!(rt; outcome(rt, system, sparse)?, wanted);
    Ok(())
}

/// Each way to decide a system that begins with a base has this outcome.
pub fn answers_after(
    rt: &impl Abort,
    base: &Part,
    system: &Part,
    wanted: Wanted,
) -> Result<(), Fail>
    requires { BeginsWith system.now base.now }
{
    answers(rt, system, wanted)?;
    assert_eq!(rt; shared::<DenseRow>(rt, base, system)?, wanted);
    assert_eq!(rt; shared::<SparseRow>(rt, base, system)?, wanted);
    Ok(())
}

/// Each way to decide a system that begins with a base has this outcome or passes 2^127 - 1.
pub fn may_answer_after(
    rt: &impl Abort,
    base: &Part,
    system: &Part,
    wanted: Wanted,
) -> Result<(), Fail>
    requires { BeginsWith system.now base.now }
{
    let alloc = system.allocator();
    let dense = outcome(rt, system, decide(alloc, system))?;
    assert!(rt; dense == wanted || dense == Wanted::Overflow);
    let sparse = outcome(rt, system, decide_by::<SparseRow>(alloc, system))?;
    assert_eq!(rt; sparse, dense);
    let shared_dense = shared::<DenseRow>(rt, base, system)?;
    assert!(rt; shared_dense == wanted || shared_dense == Wanted::Overflow);
    assert_eq!(rt; shared::<SparseRow>(rt, base, system)?, shared_dense);
    Ok(())
}

fn shared<R: Row>(rt: &impl Abort, base: &Part, system: &Part) -> Result<Wanted, Fail>
    requires { BeginsWith system.now base.now }
{
    let alloc = system.allocator();
    let reduced = reduce::<R>(alloc, base)?;
    outcome(rt, system, decide_with(alloc, &reduced, system))
}
