//! The statements of a SCoP in beta order.

ghost use Rattle.std.specs.Prelude.{◌≡◌, ◌≤◌, ◌<◌, insert, length, reverse, IfOk, OnOk};
ghost use Rattle.row_core.specs.Dense.{dense_of};
ghost use Rattle.scop_core.specs.ScopData.{betas_in};
ghost use Rattle.chlore_recover.specs.Strategy as strategy;
ghost use Rattle.schedule_recovery.specs.Falling.{Falls, put_behind};

use crate::lookups::is_before;
use scop_core::Scop;
use std::alloc::Global;
use std::marker::Model;
use suite_base::{List, NoMemory};

/// A statement: its place in the SCoP, from 0, and its dense beta vector. Contracts see the pair.
#[derive(Drop)]
pub struct Placed {
    place: usize,
    vector: List<u32>,
}

impl Model for Placed {
    ghost use Rattle.std.specs.Prelude.{List, ℕ};
    ghost use Rattle.std.specs.Coded.{coded_list, coded_ℕ};

    ghost Value = { ℕ × List ℕ };

    ghost view = { λ p. (p.place, p.vector) };
}

impl Placed {
    /// The place of the statement.
    pub fn place(&self) -> usize
        ensures { result ≡ self.now.0 }
    {
        self.place
    }

    /// The vector of the statement.
    pub fn vector(&self) -> &[u32]
        ensures { result.now ≡ self.now.1 }
    {
        self.vector.as_slice()
    }
}

// A place between two at which to look next: near the end of so many items at first, later half-way.
fn place_between(low: usize, high: usize, count: usize) -> usize
    requires some { low < high }
    requires within { high ≤ count }
    ensures from { low ≤ result }
    ensures below { result < high }
{
    let passed = count - high;
    if passed < high - low {
        high - 1 - passed
    } else {
        low + (high - low) / 2
    }
}

// The place among statements in falling beta order of one more, behind those at the front that it is before.
fn place_among(item: &Placed, fallen: &[Placed]) -> usize
    requires { Falls fallen.now }
    ensures answer { insert fallen.now result item.now ≡ put_behind item.now fallen.now }
    ensures within { result ≤ length fallen.now }
{
    let mut low = 0;
    let mut high = fallen.len();
    while low < high {
        let middle = place_between(low, high, fallen.len());
        if is_before(item.vector(), fallen[middle].vector()) {
            low = middle + 1;
        } else {
            high = middle;
        }
    }
    low
}

// Puts a statement among others that are in falling beta order.
fn put_behind(item: Placed, fallen: &mut List<Placed>) -> Result<(), NoMemory>
    requires { Falls fallen.old }
    ensures { OnOk result (fallen.new ≡ put_behind item fallen.old) }
{
    let place = place_among(&item, fallen.as_slice());
    fallen.insert(place, item)
}

// The same statements from the last one on.
fn reversed(alloc: Global, fallen: List<Placed>) -> Result<List<Placed>, NoMemory>
    ensures { IfOk result (λ made. made ≡ reverse fallen) }
{
    let mut left = fallen;
    let mut made = List::with_capacity(alloc, left.len())?;
    while let Some(item) = left.pop() {
        made.push(item)?;
    }
    Ok(made)
}

/// The statements with their dense vectors, in beta order.
pub fn in_beta_order(alloc: Global, scop: &Scop) -> Result<List<Placed>, NoMemory>
    ensures { IfOk result (λ placed. placed ≡ strategy.in_beta_order scop.now) }
{
    let mut vectors = scop.dense_betas(alloc)?;
    let mut fallen = List::with_capacity(alloc, vectors.len())?;
    while let Some(vector) = vectors.pop() {
        let place = vectors.len();
        put_behind(Placed { place, vector }, &mut fallen)?;
    }
    reversed(alloc, fallen)
}
