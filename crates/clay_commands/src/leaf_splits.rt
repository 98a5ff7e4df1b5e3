//! The split of one leaf in two.

ghost use Rattle.std.specs.Prelude.{◌≡◌, ◌<◌, ◌+◌, ◌^◌, [], length, unsigned_abs, true, All, IfOk, OnOk};
ghost use Rattle.std.proofs.Common.{get_or};
ghost use Rattle.beta_tree.specs.Edits.{same_vector};
ghost use Rattle.scop_core.specs.Printable.{IsDomainPart};
ghost use Rattle.clay_commands.specs.declared.leaves.Leaf.{Leaf};
ghost use Rattle.clay_commands.specs.Steps.{first_half, second_half, place_in, split_at as halves_at};

use crate::leaves::Leaf;
use crate::splits::{other_half, restrict};
use row_core::Coeff;
use std::alloc::Global;
use suite_base::{List, NoMemory};

// Whether the vector of a leaf is `vector`.
fn has_vector(leaf: &Leaf, vector: &[u32]) -> bool
    ensures { result ≡ same_vector leaf.now.beta vector.now }
{
    leaf.beta.as_slice() == vector
}

/// The place of the leaf whose vector is `vector`; past the last one where there is none.
pub fn place(vector: &[u32], leaves: &[Leaf]) -> usize
    ensures { result ≡ place_in vector.now leaves.now }
{
    for k in 0..leaves.len() {
        if has_vector(&leaves[k], vector) {
            return k;
        }
    }
    leaves.len()
}

// Keeps of a leaf where the affine value is at least 0.
fn keep_half(
    alloc: Global,
    leaf: &mut Leaf,
    iterators: &[Coeff],
    parameters: &[Coeff],
    constant: Coeff,
) -> Result<(), NoMemory>
    requires { All (IsDomainPart (length iterators.now) (length parameters.now)) leaf.old.statement.domain }
    ensures { OnOk result (leaf.new ≡ first_half iterators.now parameters.now constant leaf.old) }
{
    restrict(alloc, &mut leaf.statement, iterators, parameters, constant)
}

// The leaf for where the affine value is below 0.
fn new_half(
    alloc: Global,
    leaf: &Leaf,
    iterators: &[Coeff],
    parameters: &[Coeff],
    constant: Coeff,
) -> Result<Leaf, NoMemory>
    requires parts { All (IsDomainPart (length iterators.now) (length parameters.now)) leaf.now.statement.domain }
    requires range { unsigned_abs constant + 1 < 2 ^ 127 }
    ensures { IfOk result (λ half. half ≡ second_half iterators.now parameters.now constant leaf.now) }
{
    let statement = other_half(alloc, &leaf.statement, iterators, parameters, constant)?;
    Ok(Leaf {
        beta: List::new(alloc),
        statement,
        original: leaf.original,
    })
}

/// Splits the leaf at place `j`.
pub fn split_at(
    alloc: Global,
    j: usize,
    iterators: &[Coeff],
    parameters: &[Coeff],
    constant: Coeff,
    leaves: &mut Vec<Leaf>,
) -> Result<(), NoMemory>
    requires place { j < length leaves.old.items }
    requires parts { (d : Leaf) → All (IsDomainPart (length iterators.now) (length parameters.now)) (get_or leaves.old.items j d).statement.domain }
    requires range { unsigned_abs constant + 1 < 2 ^ 127 }
    ensures { OnOk result ((d : Leaf) → leaves.new.items ≡ halves_at j iterators.now parameters.now constant (get_or leaves.old.items j d) leaves.old.items) }
{
    let half = new_half(alloc, &leaves[j], iterators, parameters, constant)?;
    keep_half(alloc, &mut leaves[j], iterators, parameters, constant)?;
    leaves.insert(j + 1, half)?;
    Ok(())
}
