//! The places of children in an order, so that each is found in one step.

ghost use Rattle.std.specs.Prelude.{◌≡◌, ◌<◌, ◌^◌, length, replicate, true, IfOk};
ghost use Rattle.beta_tree.specs.Edits.{is_permutation_of, place_of, HasPlaces};

use std::alloc::Global;
use suite_base::{List, NoMemory};

// `count` zeros.
fn zeros(alloc: Global, count: usize) -> Result<List<u32>, NoMemory>
    ensures { IfOk result (λ made. made ≡ replicate count 0) }
{
    let mut made = List::new(alloc);
    for _k in 0..count {
        made.push(0)?;
    }
    Ok(made)
}

/// The place in `order` of each number that it lists, in time linear in its length.
pub fn places_in(alloc: Global, order: &[u32]) -> Result<List<u32>, NoMemory>
    requires few { length order.now < 2 ^ 32 }
    requires permutes { is_permutation_of (length order.now) order.now ≡ true }
    ensures { IfOk result (λ places. HasPlaces order.now places) }
{
    let mut places = zeros(alloc, order.len())?;
    for (k, child) in order.iter().enumerate() {
        places.set(*child as usize, k as u32);
    }
    Ok(places)
}

/// The place of `child` in the order whose `places` these are, its length where it isn't there.
pub fn place(order: &[u32], places: &[u32], child: u32) -> u32
    requires few { length order.now < 2 ^ 32 }
    requires places { HasPlaces order.now places.now }
    ensures { result ≡ place_of child order.now }
{
    match places.get(child as usize) {
        Some(place) => *place,
        None => order.len() as u32,
    }
}
