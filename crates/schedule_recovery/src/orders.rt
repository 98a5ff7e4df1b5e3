//! The reorder of statements that stand alone.

ghost use Rattle.std.specs.Prelude.{◌≡◌, ◌++◌, length, map, true, false, IfOk, OnOk};
ghost use Rattle.std.specs.List.{range_with_len};
ghost use Rattle.beta_tree.specs.Edits as edit;
ghost use Rattle.beta_tree.specs.Edits.{same_vector};
ghost use Rattle.chlore_recover.specs.Strategy as strategy;

use crate::beta_orders::Placed;
use crate::lookups::is_in_order;
use crate::pushes::push_reorder;
use crate::rank_tables::{rank_of, ranks_of};
use clay_script::Script;
use std::alloc::Global;
use suite_base::{List, NoMemory};

// The places of statements in their SCoP.
fn places_in(alloc: Global, placed: &[Placed]) -> Result<List<usize>, NoMemory>
    ensures { IfOk result (λ made. made ≡ map (λ e. e.0) placed.now) }
{
    let mut made = List::with_capacity(alloc, placed.len())?;
    for one in placed {
        made.push(one.place())?;
    }
    Ok(made)
}

// For each of the target's statements, in its order, the rank of its place among these.
fn order_among(alloc: Global, places: &[usize], target: &[Placed]) -> Result<List<usize>, NoMemory>
    ensures { IfOk result (λ made. made ≡ map (λ e. edit.place_of e.0 places.now) target.now) }
{
    let ranks = ranks_of(alloc, places)?;
    let mut made = List::with_capacity(alloc, target.len())?;
    for one in target {
        made.push(rank_of(one.place(), places, ranks.as_slice()))?;
    }
    Ok(made)
}

/// Appends the reorder that brings the original's statements into the target's order, where it changes something.
pub fn push_order(
    alloc: Global,
    original: &[Placed],
    target: &[Placed],
    script: &mut Script,
) -> Result<(), NoMemory>
    ensures { OnOk result (script.new ≡ script.old ++ strategy.reorder_unless_same (strategy.order_for original.now target.now)) }
{
    let places = places_in(alloc, original)?;
    let order = order_among(alloc, places.as_slice(), target)?;
    if is_in_order(order.as_slice()) {
        return Ok(());
    }
    push_reorder(alloc, order.as_slice(), script)
}
