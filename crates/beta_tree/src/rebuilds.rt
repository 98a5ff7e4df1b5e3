//! The edit of all vectors by each operation, as a new list.

ghost use Rattle.std.specs.Prelude.{◌≡◌, ◌+◌, ◌<◌, ◌^◌, ◌∷◌, ◌++◌, [], length, map, true, IfOk, OnOk};
ghost use Rattle.std.specs.List.{flat_map};
ghost use Rattle.beta_tree.specs.Edits.{below, split_loop, join_loops, reordered, is_permutation_of, with_level, make_room, leaf_split};
ghost use Rattle.beta_tree.specs.Vectors.{Fit, AllFit, LongerUnder};

use crate::copies::{copied_vector, next_sibling};
use crate::edits::{join_vector, level_vector, reorder_vector, room_vector, split_vector};
use crate::tables::places_in;
use suite_base::{List, NoMemory};

/// The vectors after the fission of `p` after `siblings` at its child `first`.
pub fn split_all(
    vectors: &List<List<u32>>,
    siblings: &[u32],
    p: u32,
    first: u32,
) -> Result<List<List<u32>>, NoMemory>
    requires { AllFit (map (below siblings.now (split_loop p first)) vectors.now) }
    ensures { IfOk result (λ made. made ≡ map (below siblings.now (split_loop p first)) vectors.now) }
{
    let alloc = vectors.allocator();
    let mut made = List::new(alloc);
    for vector in vectors.as_slice() {
        made.push(split_vector(alloc, siblings, p, first, vector.as_slice())?)?;
    }
    Ok(made)
}

/// The vectors after the fuse of `p` after `siblings`, which has `count` children, with the sibling
/// after it.
pub fn join_all(
    vectors: &List<List<u32>>,
    siblings: &[u32],
    p: u32,
    count: u32,
) -> Result<List<List<u32>>, NoMemory>
    requires { AllFit (map (below siblings.now (join_loops p count)) vectors.now) }
    ensures { IfOk result (λ made. made ≡ map (below siblings.now (join_loops p count)) vectors.now) }
{
    let alloc = vectors.allocator();
    let mut made = List::new(alloc);
    for vector in vectors.as_slice() {
        made.push(join_vector(alloc, siblings, p, count, vector.as_slice())?)?;
    }
    Ok(made)
}

/// The vectors after the children of `prefix` got their places in `order` as numbers.
pub fn reorder_all(
    vectors: &List<List<u32>>,
    prefix: &[u32],
    order: &[u32],
) -> Result<List<List<u32>>, NoMemory>
    requires few { length order.now < 2 ^ 32 }
    requires permutes { is_permutation_of (length order.now) order.now ≡ true }
    ensures { IfOk result (λ made. made ≡ map (reordered prefix.now order.now) vectors.now) }
{
    let alloc = vectors.allocator();
    let places = places_in(alloc, order)?;
    let mut made = List::new(alloc);
    for vector in vectors.as_slice() {
        made.push(reorder_vector(alloc, prefix, order, places.as_slice(), vector.as_slice())?)?;
    }
    Ok(made)
}

/// The vectors with a 0 at place `level` of each that begins with `prefix`.
pub fn level_all(
    vectors: &List<List<u32>>,
    prefix: &[u32],
    level: usize,
) -> Result<List<List<u32>>, NoMemory>
    requires { LongerUnder prefix.now level vectors.now }
    ensures { IfOk result (λ made. made ≡ map (with_level prefix.now level) vectors.now) }
{
    let alloc = vectors.allocator();
    let mut made = List::new(alloc);
    for vector in vectors.as_slice() {
        made.push(level_vector(alloc, prefix, level, vector.as_slice())?)?;
    }
    Ok(made)
}

// Appends `leaf`, and then the leaf right after it, which is `siblings` and `p + 1`.
fn push_leaves(
    made: &mut List<List<u32>>,
    leaf: &[u32],
    siblings: &[u32],
    p: u32,
) -> Result<(), NoMemory>
    requires { p + 1 < 2 ^ 32 }
    ensures { OnOk result (made.new ≡ made.old ++ leaf.now ∷ ((siblings.now ++ (p + 1) ∷ []) ∷ [])) }
{
    let alloc = made.allocator();
    let next = next_sibling(alloc, siblings, p)?;
    made.push(copied_vector(alloc, leaf)?)?;
    made.push(next)
}

// Appends `vector` after room for a new leaf was made right after `leaf`, which is `siblings` and
// `p`; after `leaf` itself the new leaf.
fn push_split(
    made: &mut List<List<u32>>,
    leaf: &[u32],
    siblings: &[u32],
    p: u32,
    vector: &[u32],
) -> Result<(), NoMemory>
    requires leaf { leaf.now ≡ siblings.now ++ p ∷ [] }
    requires next { p + 1 < 2 ^ 32 }
    requires fit { Fit (below siblings.now (make_room p) vector.now) }
    ensures { OnOk result (made.new ≡ made.old ++ leaf_split leaf.now vector.now) }
{
    if vector == leaf {
        push_leaves(made, vector, siblings, p)
    } else {
        made.push(room_vector(made.allocator(), siblings, p, vector)?)
    }
}

/// The vectors with a new leaf right after `leaf`, which is `siblings` and `p`.
pub fn split_leaves(
    vectors: &List<List<u32>>,
    leaf: &[u32],
    siblings: &[u32],
    p: u32,
) -> Result<List<List<u32>>, NoMemory>
    requires leaf { leaf.now ≡ siblings.now ++ p ∷ [] }
    requires next { p + 1 < 2 ^ 32 }
    requires fit { AllFit (map (below siblings.now (make_room p)) vectors.now) }
    ensures { IfOk result (λ made. made ≡ flat_map (leaf_split leaf.now) vectors.now) }
{
    let mut made = List::new(vectors.allocator());
    for vector in vectors.as_slice() {
        push_split(&mut made, leaf, siblings, p, vector.as_slice())?;
    }
    Ok(made)
}
