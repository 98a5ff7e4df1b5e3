//! Tables of where places stand in a list of places.

ghost use Rattle.std.specs.Prelude.{◌≡◌, replicate, IfOk};
ghost use Rattle.beta_tree.specs.Edits as edit;
ghost use Rattle.schedule_recovery.specs.Ranks.{AreRanks};

use crate::lookups::place_of;
use std::alloc::Global;
use suite_base::{List, NoMemory};

// A list of a number so many times.
fn filled(alloc: Global, count: usize, number: usize) -> Result<List<usize>, NoMemory>
    ensures { IfOk result (λ made. made ≡ replicate count number) }
{
    let mut made = List::with_capacity(alloc, count)?;
    for k in 0..count {
        made.push(number)?;
    }
    Ok(made)
}

/// The rank among these places of each place below their count.
pub fn ranks_of(alloc: Global, places: &[usize]) -> Result<List<usize>, NoMemory>
    ensures { IfOk result (λ ranks. AreRanks places.now ranks) }
{
    let mut ranks = filled(alloc, places.len(), places.len())?;
    let mut left = places.len();
    while left > 0 {
        left -= 1;
        let place = places[left];
        if place < ranks.len() {
            ranks.set(place, left);
        }
    }
    Ok(ranks)
}

/// The rank of a place among these, whose ranks are known.
pub fn rank_of(place: usize, places: &[usize], ranks: &[usize]) -> usize
    requires { AreRanks places.now ranks.now }
    ensures { result ≡ edit.place_of place places.now }
{
    if place < ranks.len() {
        return ranks[place];
    }
    place_of(place, places)
}
