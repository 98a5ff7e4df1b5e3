//! New vectors made of parts of old ones.

ghost use Rattle.std.specs.Prelude.{◌≡◌, ◌+◌, ◌<◌, ◌^◌, [], ◌∷◌, ◌++◌, OnOk, IfOk};

use std::alloc::Global;
use suite_base::{List, NoMemory};

// Appends `more` to `vector`.
fn extend(vector: &mut List<u32>, more: &[u32]) -> Result<(), NoMemory>
    ensures { OnOk result (vector.new ≡ vector.old ++ more.now) }
{
    for entry in more {
        vector.push(*entry)?;
    }
    Ok(())
}

/// A copy of `vector`.
pub fn copied_vector(alloc: Global, vector: &[u32]) -> Result<List<u32>, NoMemory>
    ensures { IfOk result (λ copy. copy ≡ vector.now) }
{
    let mut copy = List::new(alloc);
    extend(&mut copy, vector)?;
    Ok(copy)
}

/// The vector of `start`, `middle` and `rest`, one after the other.
pub fn joined(
    alloc: Global,
    start: &[u32],
    middle: &[u32],
    rest: &[u32],
) -> Result<List<u32>, NoMemory>
    ensures { IfOk result (λ vector. vector ≡ start.now ++ middle.now ++ rest.now) }
{
    let mut vector = List::new(alloc);
    extend(&mut vector, start)?;
    extend(&mut vector, middle)?;
    extend(&mut vector, rest)?;
    Ok(vector)
}

/// The sibling right after `siblings`, `p`.
pub fn next_sibling(alloc: Global, siblings: &[u32], p: u32) -> Result<List<u32>, NoMemory>
    requires { p + 1 < 2 ^ 32 }
    ensures { IfOk result (λ next. next ≡ siblings.now ++ (p + 1) ∷ []) }
{
    joined(alloc, siblings, &[p + 1], &[])
}
