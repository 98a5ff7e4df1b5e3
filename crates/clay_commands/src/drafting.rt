//! From a SCoP to the leaves of its draft, and back.

ghost use Rattle.std.specs.Prelude.{◌≡◌, ◌<◌, ◌≤◌, ◌^◌, ◌+◌, [], ◌∷◌, ◌++◌, length, map, pos, All, IfOk, OnOk};
ghost use Rattle.std.proofs.Common.{get_or};
ghost use Rattle.suite_base.specs.Limits.{max_statements};
ghost use Rattle.row_core.specs.Dense.{dense_of};
ghost use Rattle.scop_core.specs.ScopData.{betas_in};
ghost use Rattle.clay_commands.specs.Afters.{closed_leaf};
ghost use Rattle.clay_commands.specs.Drafts.{leaves_from};
ghost use Rattle.clay_commands.specs.Soundness.{IsSoundLeaf, numbered_leaf, raw_of, original_of};

use crate::leaves::Leaf;
use beta_tree::{Betas, copied_vector};
use row_core::Coeff;
use scop_core::{Pieces, RawStatement, Scop, Statement};
use scop_data::copies::beta_vectors;
use std::alloc::Global;
use suite_base::{List, NoMemory};

/// The beta vectors of a SCoP, numbered densely.
pub fn dense_vectors(alloc: Global, scop: &Scop) -> Result<Betas, NoMemory>
    ensures { IfOk result (λ betas. betas ≡ dense_of (betas_in scop.now.statements)) }
{
    let statements = scop.statements();
    let vectors = beta_vectors(alloc, statements)?;
    Betas::dense(alloc, &vectors)
}

// Appends the leaf of a statement with the vector at place `k`.
fn push_leaf(
    alloc: Global,
    betas: &Betas,
    k: usize,
    statement: &Statement,
    leaves: &mut Vec<Leaf>,
) -> Result<(), NoMemory>
    requires place { k < length betas.now }
    requires few { k + 1 < 2 ^ 32 }
    ensures { OnOk result (leaves.new.items ≡ leaves.old.items ++ numbered_leaf (get_or betas.now k []) statement.now (k + 1) ∷ []) }
{
    match betas.vector(k) {
        None => unreachable!(),
        Some(vector) => {
            let beta = copied_vector(alloc, vector)?;
            let statement = statement.copy(alloc)?;
            leaves.push(Leaf {
                beta,
                statement,
                original: k as u32 + 1,
            })?;
            Ok(())
        }
    }
}

/// The statements with their vectors, numbered from 1.
pub fn draft(alloc: Global, betas: &Betas, statements: &[Statement]) -> Result<Vec<Leaf>, NoMemory>
    requires all { length betas.now ≡ length statements.now }
    requires few { length statements.now ≤ max_statements }
    ensures { IfOk result (λ leaves. leaves.items ≡ leaves_from 1 betas.now statements.now) }
{
    let mut leaves = Vec::new(alloc);
    for k in 0..statements.len() {
        push_leaf(alloc, betas, k, &statements[k], &mut leaves)?;
    }
    Ok(leaves)
}

// The entries of a vector as betas.
fn betas_from_vector(alloc: Global, vector: &[u32]) -> Result<List<Coeff>, NoMemory>
    ensures { IfOk result (λ made. made ≡ map (λ b. pos b) vector.now) }
{
    let mut made = List::new(alloc);
    for entry in vector {
        made.push(Coeff::bounded(*entry as i128))?;
    }
    Ok(made)
}

// The statement of a leaf, with the leaf's vector and without extensions.
fn closed(alloc: Global, leaf: &Leaf) -> Result<Statement, NoMemory>
    ensures { IfOk result (λ made. made ≡ closed_leaf leaf.now) }
{
    let mut statement = leaf.statement.copy(alloc)?;
    let betas = betas_from_vector(alloc, leaf.beta.as_slice())?;
    statement.schedule.betas = betas;
    statement.extensions = List::new(alloc);
    Ok(statement)
}

// The pieces of the statement of a leaf.
fn closed_pieces(alloc: Global, parameters: usize, leaf: &Leaf) -> Result<RawStatement, NoMemory>
    requires { IsSoundLeaf parameters leaf.now }
    ensures { IfOk result (λ made. made ≡ raw_of parameters leaf.now) }
{
    let statement = closed(alloc, leaf)?;
    statement.pieces(alloc, parameters)
}

/// The pieces of the statements of leaves.
pub fn raw_statements(
    alloc: Global,
    parameters: usize,
    leaves: &[Leaf],
) -> Result<List<RawStatement>, NoMemory>
    requires { All (IsSoundLeaf parameters) leaves.now }
    ensures { IfOk result (λ made. made ≡ map (raw_of parameters) leaves.now) }
{
    let mut made = List::new(alloc);
    for leaf in leaves {
        made.push(closed_pieces(alloc, parameters, leaf)?)?;
    }
    Ok(made)
}

/// The numbers of the statements that leaves come from.
pub fn originals(alloc: Global, leaves: &[Leaf]) -> Result<Pieces, NoMemory>
    ensures { IfOk result (λ of. of ≡ map original_of leaves.now) }
{
    let mut of = Pieces::new(alloc);
    for leaf in leaves {
        of.push(leaf.original)?;
    }
    Ok(of)
}
