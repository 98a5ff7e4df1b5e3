//! Times of single calls, in nanoseconds.

ghost use Rattle.std.specs.Prelude.{◌<◌, ◌≡◌, length, take};
ghost use Rattle.elim_core.specs.Reductions.{BeginsWith};

use crate::systems::{ones, wide_system};
use elim_core::{ElimFail, Reduced, Verdict, decide, decide_by, decide_with, reduce};
use farkas_cert::check;
use relation_core::Part;
use row_core::SparseRow;
use std::alloc::Global;
use std::test::Fail;
use std::time::{Clock, Instant};

/// The time of one decision in each way, in nanoseconds, and how it ended.
#[derive(Clone, Copy)]
pub struct Times {
    pub dense: u128,
    pub sparse: u128,
    pub shared: u128,
    pub end: End,
}

/// How the decision of a system ends.
#[derive(Clone, Copy, PartialEq, Eq)]
pub enum End {
    Point,
    Empty,
    Limit,
}

impl End {
    /// The end in words.
    pub fn words(self) -> &'static str {
        match self {
            End::Point => "a point",
            End::Empty => "empty",
            End::Limit => "past a limit",
        }
    }
}

/// The sums of the times of many systems, and how many of them ended in each way.
#[derive(Clone, Copy, Default)]
pub struct Totals {
    pub dense: u128,
    pub sparse: u128,
    pub reduction: u128,
    pub shared: u128,
    pub points: u32,
    pub empty: u32,
    pub limits: u32,
}

impl Totals {
    /// Adds a system.
    pub fn add(&mut self, reduction: u128, times: &Times) {
        self.dense = self.dense.saturating_add(times.dense);
        self.sparse = self.sparse.saturating_add(times.sparse);
        self.reduction = self.reduction.saturating_add(reduction);
        self.shared = self.shared.saturating_add(times.shared);
        match times.end {
            End::Point => self.points = self.points.saturating_add(1),
            End::Empty => self.empty = self.empty.saturating_add(1),
            End::Limit => self.limits = self.limits.saturating_add(1),
        }
    }
}

/// The time in which a certificate of 256 multipliers is made and checked, and how many of 1,000 checks stayed in the range.
pub fn check_time(clock: &impl Clock, alloc: Global) -> Result<(u128, u32), Fail> {
    let system = wide_system(alloc)?;
    let mut light: u32 = 0;
    let start = Instant::now(clock)?;
    for _ in 0..1_000 {
        let certificate = ones(alloc, 256)?;
        if check(&system, &certificate).is_ok() {
            light = light.saturating_add(1);
        }
    }
    Ok((start.elapsed(clock)?.as_nanos() / 1_000, light))
}

/// The time of the reduction of a base, the mean of `rounds` many.
pub fn reduction_time(
    clock: &impl Clock,
    alloc: Global,
    base: &Part,
    rounds: u32,
) -> Result<u128, Fail>
    requires { 0 < rounds }
{
    let start = Instant::now(clock)?;
    for _ in 0..rounds {
        let _ = reduce::<SparseRow>(alloc, base);
    }
    Ok(start.elapsed(clock)?.as_nanos() / u128::from(rounds))
}

/// The times of a system whose rows begin with those of a reduced base, each the mean of `rounds`
/// many.
pub fn decision_times(
    clock: &impl Clock,
    alloc: Global,
    base: &Reduced<SparseRow>,
    system: &Part,
    rounds: u32,
) -> Result<Times, Fail>
    requires rounds { 0 < rounds }
    requires begins { BeginsWith system.now base.now }
{
    Ok(Times {
        dense: dense_time(clock, alloc, system, rounds)?,
        sparse: sparse_time(clock, alloc, system, rounds)?,
        shared: shared_time(clock, alloc, base, system, rounds)?,
        end: end_of(&decide(alloc, system)),
    })
}

// The time of one decision over dense rows, in nanoseconds on average.
fn dense_time(clock: &impl Clock, alloc: Global, system: &Part, rounds: u32) -> Result<u128, Fail>
    requires { 0 < rounds }
{
    let start = Instant::now(clock)?;
    for _ in 0..rounds {
        let _ = decide(alloc, system);
    }
    Ok(start.elapsed(clock)?.as_nanos() / u128::from(rounds))
}

// The same over sparse rows.
fn sparse_time(clock: &impl Clock, alloc: Global, system: &Part, rounds: u32) -> Result<u128, Fail>
    requires { 0 < rounds }
{
    let start = Instant::now(clock)?;
    for _ in 0..rounds {
        let _ = decide_by::<SparseRow>(alloc, system);
    }
    Ok(start.elapsed(clock)?.as_nanos() / u128::from(rounds))
}

// The same over sparse rows and a reduced base.
fn shared_time(
    clock: &impl Clock,
    alloc: Global,
    base: &Reduced<SparseRow>,
    system: &Part,
    rounds: u32,
) -> Result<u128, Fail>
    requires rounds { 0 < rounds }
    requires begins { BeginsWith system.now base.now }
{
    let start = Instant::now(clock)?;
    for _ in 0..rounds {
        let _ = decide_with(alloc, base, system);
    }
    Ok(start.elapsed(clock)?.as_nanos() / u128::from(rounds))
}

/// How a decision ends.
pub fn end_of(decided: &Result<Verdict, ElimFail>) -> End {
    match decided {
        Ok(Verdict::HasPoint) => End::Point,
        Ok(Verdict::Empty(_)) => End::Empty,
        Err(_) => End::Limit,
    }
}
