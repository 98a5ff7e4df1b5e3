//! The times of the decisions of all systems of a list.

ghost use Rattle.std.specs.Prelude.{◌≡◌, ◌<◌, ◌≤◌, length, IfOk, OnOk};
ghost use Rattle.relation_core.specs.Systems.{width};
ghost use Rattle.elim_core.specs.Reductions.{BeginsWith};

use crate::times::{End, end_of};
use elim_core::{Reduced, decide_by, decide_with, reduce};
use relation_core::{Part, PartRow};
use row_core::{Coeff, SparseRow};
use std::alloc::Global;
use std::test::Fail;
use std::time::{Clock, Instant};
use suite_base::NoMemory;

/// The times of the decisions of many systems, in nanoseconds, and how they ended.
#[derive(Clone, Copy, Default)]
pub struct FileTimes {
    /// Each system for itself.
    pub alone: u128,
    /// Each run of systems that begin alike: its base once, and each system over that.
    pub shared: u128,
    pub runs: u32,
    pub systems: u32,
    pub points: u32,
    pub empty: u32,
    pub limits: u32,
}

impl FileTimes {
    // Counts a decision of this time.
    fn add(&mut self, spent: u128, end: End) {
        self.alone = self.alone.saturating_add(spent);
        self.systems = self.systems.saturating_add(1);
        match end {
            End::Point => self.points = self.points.saturating_add(1),
            End::Empty => self.empty = self.empty.saturating_add(1),
            End::Limit => self.limits = self.limits.saturating_add(1),
        }
    }

    // Counts a run of this time.
    fn add_run(&mut self, spent: u128) {
        self.shared = self.shared.saturating_add(spent);
        self.runs = self.runs.saturating_add(1);
    }
}

/// The least times of three rounds, in each way.
pub fn file_times(clock: &impl Clock, alloc: Global, systems: &[Part]) -> Result<FileTimes, Fail> {
    let mut best = round(clock, alloc, systems)?;
    for _ in 0..2 {
        let times = round(clock, alloc, systems)?;
        best.alone = best.alone.min(times.alone);
        best.shared = best.shared.min(times.shared);
    }
    Ok(best)
}

// One round over all systems.
fn round(clock: &impl Clock, alloc: Global, systems: &[Part]) -> Result<FileTimes, Fail> {
    let mut times = FileTimes::default();
    for system in systems {
        let start = Instant::now(clock)?;
        let decided = decide_by::<SparseRow>(alloc, system);
        let spent = start.elapsed(clock)?.as_nanos();
        times.add(spent, end_of(&decided));
    }
    let mut first = 0;
    for _ in 0..systems.len() {
        if first < systems.len() {
            let end = run_end(systems, first);
            times.add_run(run_time(clock, alloc, systems, first, end)?);
            first = end;
        }
    }
    Ok(times)
}

// Where the run of systems ends that begin with more than half of the rows of the first.
fn run_end(systems: &[Part], first: usize) -> usize
    requires { first < length systems.now }
    ensures some { first < result }
    ensures within { result ≤ length systems.now }
{
    let half = systems[first].row_count() / 2;
    for k in first + 1..systems.len() {
        if common_rows(&systems[first], &systems[k]) <= half {
            return k;
        }
    }
    systems.len()
}

// The number of rows with which both begin; 0 where the shapes differ.
fn common_rows(a: &Part, b: &Part) -> usize {
    if a.shape() != b.shape() {
        return 0;
    }
    let mut count: usize = 0;
    for k in 0..a.row_count().min(b.row_count()) {
        if !is_row(a, k, b) {
            return count;
        }
        count = count.saturating_add(1);
    }
    count
}

// Whether both have the same row `k`.
fn is_row(a: &Part, k: usize, b: &Part) -> bool {
    if k >= a.row_count() || k >= b.row_count() {
        return false;
    }
    let one = &a.rows()[k];
    let other = &b.rows()[k];
    one.kind == other.kind && one.entries.as_slice() == other.entries.as_slice()
}

// The time of the systems of a run: its base is reduced once, and each system is decided over it.
fn run_time(
    clock: &impl Clock,
    alloc: Global,
    systems: &[Part],
    first: usize,
    end: usize,
) -> Result<u128, Fail>
    requires some { first < end }
    requires within { end ≤ length systems.now }
{
    let base = base_of(alloc, systems, first, end)?;
    let start = Instant::now(clock)?;
    let reduced = reduce::<SparseRow>(alloc, &base)?;
    let mut spent = start.elapsed(clock)?.as_nanos();
    for k in first..end {
        let system = followed(alloc, &base, &systems[k])?;
        spent = spent.saturating_add(shared_time(clock, alloc, &reduced, &system)?);
    }
    Ok(spent)
}

// The rows with which all systems of a run begin.
fn base_of(alloc: Global, systems: &[Part], first: usize, end: usize) -> Result<Part, NoMemory>
    requires some { first < end }
    requires within { end ≤ length systems.now }
{
    let mut base = systems[first].copy(alloc)?;
    for k in first..end {
        let count = common_rows(&base, &systems[k]);
        base.truncate(count);
    }
    Ok(base)
}

// The base, and behind it the rows of a system that begins with it.
fn followed(alloc: Global, base: &Part, system: &Part) -> Result<Part, NoMemory>
    ensures { IfOk result (λ made. BeginsWith made base.now) }
{
    let mut made = base.copy(alloc)?;
    for k in base.row_count()..system.row_count() {
        push_copy(&mut made, &system.rows()[k])?;
    }
    Ok(made)
}

// Appends a copy of a row, which is cut or filled with zeros where it is not as wide. What the system begins
// with stays.
fn push_copy(made: &mut Part, row: &PartRow) -> Result<(), NoMemory>
    ensures { OnOk result (BeginsWith made.new made.old) }
{
    let mut entries = Vec::new(made.allocator());
    for k in 0..made.width() {
        entries.push(entry_at(row.entries.as_slice(), k))?;
    }
    made.push_row(row.kind, entries.as_slice())
}

// Entry `k`; 0 behind the last.
fn entry_at(entries: &[Coeff], k: usize) -> Coeff {
    if k < entries.len() {
        entries[k]
    } else {
        Coeff::ZERO
    }
}

// The time of one decision over a reduced base.
fn shared_time(
    clock: &impl Clock,
    alloc: Global,
    base: &Reduced<SparseRow>,
    system: &Part,
) -> Result<u128, Fail>
    requires { BeginsWith system.now base.now }
{
    let start = Instant::now(clock)?;
    let _ = decide_with(alloc, base, system);
    Ok(start.elapsed(clock)?.as_nanos())
}
