//! The edit of one vector by each operation, as a new vector.

ghost use Rattle.std.specs.Prelude.{◌≡◌, ◌+◌, ◌<◌, ◌≤◌, ◌^◌, ◌∷◌, ◌++◌, [], length, IfOk, is_some, true};
ghost use Rattle.beta_tree.specs.Edits.{below, moved_up as up, split_loop, join_loops, reordered, renumbered, with_level, make_room, HasPlaces};
ghost use Rattle.beta_tree.specs.Vectors.{after as what_follows, Fit};

use crate::copies::{copied_vector, joined};
use crate::looks::after;
use crate::tables::place;
use std::alloc::Global;
use suite_base::{List, NoMemory};

// The number of the sibling `x` of `p`, where a new sibling came right after `p`.
fn moved_up(p: u32, x: u32) -> u32
    requires { up p x < 2 ^ 32 }
    ensures { result ≡ up p x }
{
    if p < x { x + 1 } else { x }
}

// The first two entries `x`, `y` of a vector after the fission of `p` at its child `first`.
fn split_pair(p: u32, first: u32, x: u32, y: u32) -> [u32; 2]
    requires { Fit (split_loop p first (x ∷ (y ∷ []))) }
    ensures { result ≡ split_loop p first (x ∷ (y ∷ [])) }
{
    if x == p && y >= first {
        [p + 1, y - first]
    } else if p < x {
        [x + 1, y]
    } else {
        [x, y]
    }
}

// `siblings`, and then `rest` after the fission of `p` at its child `first`.
fn split_rest(
    alloc: Global,
    siblings: &[u32],
    p: u32,
    first: u32,
    rest: &[u32],
) -> Result<List<u32>, NoMemory>
    requires { Fit (split_loop p first rest.now) }
    ensures { IfOk result (λ made. made ≡ siblings.now ++ split_loop p first rest.now) }
{
    match rest {
        [x, y, more @ ..] => joined(alloc, siblings, &split_pair(p, first, *x, *y), more),
        [x] => joined(alloc, siblings, &[moved_up(p, *x)], &[]),
        [] => copied_vector(alloc, siblings),
    }
}

/// `vector` after the fission of `p` after `siblings` at its child `first`.
pub fn split_vector(
    alloc: Global,
    siblings: &[u32],
    p: u32,
    first: u32,
    vector: &[u32],
) -> Result<List<u32>, NoMemory>
    requires { Fit (below siblings.now (split_loop p first) vector.now) }
    ensures { IfOk result (λ made. made ≡ below siblings.now (split_loop p first) vector.now) }
{
    match after(siblings, vector) {
        Some(rest) => split_rest(alloc, siblings, p, first, rest),
        None => copied_vector(alloc, vector),
    }
}

// The first two entries `x`, `y` of a vector after the fuse of `p`, which has `count` children, with
// the sibling after it.
fn join_pair(p: u32, count: u32, x: u32, y: u32) -> [u32; 2]
    requires { Fit (join_loops p count (x ∷ (y ∷ []))) }
    ensures { result ≡ join_loops p count (x ∷ (y ∷ [])) }
{
    if x <= p {
        [x, y]
    } else if x - 1 == p {
        [p, y + count]
    } else {
        [x - 1, y]
    }
}

// `siblings`, and then `rest` after the fuse of `p`, which has `count` children, with the sibling
// after it.
fn join_rest(
    alloc: Global,
    siblings: &[u32],
    p: u32,
    count: u32,
    rest: &[u32],
) -> Result<List<u32>, NoMemory>
    requires { Fit (join_loops p count rest.now) }
    ensures { IfOk result (λ made. made ≡ siblings.now ++ join_loops p count rest.now) }
{
    match rest {
        [x, y, more @ ..] => joined(alloc, siblings, &join_pair(p, count, *x, *y), more),
        [x] if *x > p => joined(alloc, siblings, &[*x - 1], &[]),
        [x] => joined(alloc, siblings, &[*x], &[]),
        [] => copied_vector(alloc, siblings),
    }
}

/// `vector` after the fuse of `p` after `siblings`, which has `count` children, with the sibling after
/// it.
pub fn join_vector(
    alloc: Global,
    siblings: &[u32],
    p: u32,
    count: u32,
    vector: &[u32],
) -> Result<List<u32>, NoMemory>
    requires { Fit (below siblings.now (join_loops p count) vector.now) }
    ensures { IfOk result (λ made. made ≡ below siblings.now (join_loops p count) vector.now) }
{
    match after(siblings, vector) {
        Some(rest) => join_rest(alloc, siblings, p, count, rest),
        None => copied_vector(alloc, vector),
    }
}

// `prefix`, and then `rest` with the place in `order` of its first entry in place of that.
fn reorder_rest(
    alloc: Global,
    prefix: &[u32],
    order: &[u32],
    places: &[u32],
    rest: &[u32],
) -> Result<List<u32>, NoMemory>
    requires few { length order.now < 2 ^ 32 }
    requires places { HasPlaces order.now places.now }
    ensures { IfOk result (λ made. made ≡ prefix.now ++ renumbered order.now rest.now) }
{
    match rest {
        [child, more @ ..] => joined(alloc, prefix, &[place(order, places, *child)], more),
        [] => copied_vector(alloc, prefix),
    }
}

/// `vector` after the children of `prefix` got their `places` in `order` as numbers.
pub fn reorder_vector(
    alloc: Global,
    prefix: &[u32],
    order: &[u32],
    places: &[u32],
    vector: &[u32],
) -> Result<List<u32>, NoMemory>
    requires few { length order.now < 2 ^ 32 }
    requires places { HasPlaces order.now places.now }
    ensures { IfOk result (λ made. made ≡ reordered prefix.now order.now vector.now) }
{
    match after(prefix, vector) {
        Some(rest) => reorder_rest(alloc, prefix, order, places, rest),
        None => copied_vector(alloc, vector),
    }
}

/// `vector` with a 0 at place `level` where it begins with `prefix`; it is longer than that then.
pub fn level_vector(
    alloc: Global,
    prefix: &[u32],
    level: usize,
    vector: &[u32],
) -> Result<List<u32>, NoMemory>
    requires { is_some (what_follows prefix.now vector.now) ≡ true → level < length vector.now }
    ensures { IfOk result (λ made. made ≡ with_level prefix.now level vector.now) }
{
    if after(prefix, vector).is_some() {
        joined(alloc, &vector[..level], &[0], &vector[level..])
    } else {
        copied_vector(alloc, vector)
    }
}

// `siblings`, and then `rest` after room for a new leaf was made right after `p`.
fn room_rest(alloc: Global, siblings: &[u32], p: u32, rest: &[u32]) -> Result<List<u32>, NoMemory>
    requires { Fit (make_room p rest.now) }
    ensures { IfOk result (λ made. made ≡ siblings.now ++ make_room p rest.now) }
{
    match rest {
        [x, more @ ..] => joined(alloc, siblings, &[moved_up(p, *x)], more),
        [] => copied_vector(alloc, siblings),
    }
}

/// `vector` after room for a new leaf was made right after the leaf `p` after `siblings`.
pub fn room_vector(
    alloc: Global,
    siblings: &[u32],
    p: u32,
    vector: &[u32],
) -> Result<List<u32>, NoMemory>
    requires { Fit (below siblings.now (make_room p) vector.now) }
    ensures { IfOk result (λ made. made ≡ below siblings.now (make_room p) vector.now) }
{
    match after(siblings, vector) {
        Some(rest) => room_rest(alloc, siblings, p, rest),
        None => copied_vector(alloc, vector),
    }
}
