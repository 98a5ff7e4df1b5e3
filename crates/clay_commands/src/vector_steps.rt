//! The commands that edit the beta vectors alone: fission, fuse and reorder.

ghost use Rattle.std.specs.Prelude.{◌≡◌, ◌<◌, ◌^◌, [], length, Ok, IfOk, IfErr, OnOk};
ghost use Rattle.std.proofs.Common.{get_or};
ghost use Rattle.beta_tree.specs.Answers.{fission_answer, fuse_answer, reorder_answer};
ghost use Rattle.scop_core.specs.Assembly.{HasCause};
ghost use Rattle.clay_commands.specs.Arguments.{natural, order_in};
ghost use Rattle.clay_commands.specs.Drafts.{betas_of, with_beta};
ghost use Rattle.clay_commands.specs.Refusals.{refused};
ghost use Rattle.clay_commands.specs.Steps.{joined, fail_of};

use crate::arguments::{betas_from, clamped};
use crate::leaves::Leaf;
use beta_tree::{BetaFail, Betas, copied_vector};
use row_core::Coeff;
use std::alloc::Global;
use suite_base::{Fail, List, NoMemory, Refusal};

/// The failure of command number `i` by an operation on the vectors.
pub fn beta_fail(i: u32, fail: BetaFail) -> Fail
    ensures { result ≡ fail_of i fail }
{
    match fail {
        BetaFail::Memory => Fail::Memory,
        BetaFail::NoBeta => Fail::Refused(Refusal::NoBeta(i)),
        BetaFail::NotALoop => Fail::Refused(Refusal::NotALoop(i)),
        BetaFail::BadArgument => Fail::Refused(Refusal::BadArgument(i)),
    }
}

// Gives a leaf the vector at place `k`.
fn set_vector(alloc: Global, betas: &Betas, k: usize, leaf: &mut Leaf) -> Result<(), NoMemory>
    requires { k < length betas.now }
    ensures { OnOk result (leaf.new ≡ with_beta (get_or betas.now k []) leaf.old) }
{
    match betas.vector(k) {
        None => unreachable!(),
        Some(vector) => {
            let beta = copied_vector(alloc, vector)?;
            leaf.beta = beta;
            Ok(())
        }
    }
}

/// Gives each leaf its vector.
pub fn join(alloc: Global, betas: &Betas, leaves: &mut Vec<Leaf>) -> Result<(), NoMemory>
    requires { length betas.now ≡ length leaves.old.items }
    ensures { OnOk result (leaves.new.items ≡ joined betas.now leaves.old.items) }
{
    for k in 0..leaves.len() {
        set_vector(alloc, betas, k, &mut leaves[k])?;
    }
    Ok(())
}

/// Fission of the prefix at its child number `c`.
pub fn fission(i: u32, prefix: &[u32], c: Coeff, betas: &mut Betas) -> Result<(), Fail>
    ensures ok { OnOk result (fission_answer prefix.now (natural c) betas.old ≡ Ok betas.new) }
    ensures cause { IfErr result (HasCause (refused i (fission_answer prefix.now (natural c) betas.old))) }
{
    let _tree = betas.len();
    match betas.fission(prefix, clamped(c)) {
        Ok(()) => Ok(()),
        Err(fail) => Err(beta_fail(i, fail)),
    }
}

/// Fuse of the prefix with its next sibling.
pub fn fuse(i: u32, prefix: &[u32], betas: &mut Betas) -> Result<(), Fail>
    ensures ok { OnOk result (fuse_answer prefix.now betas.old ≡ Ok betas.new) }
    ensures cause { IfErr result (HasCause (refused i (fuse_answer prefix.now betas.old))) }
{
    match betas.fuse(prefix) {
        Ok(()) => Ok(()),
        Err(fail) => Err(beta_fail(i, fail)),
    }
}

// Reorder of the children of the prefix by an order of 32-bit numbers.
fn reorder_by(i: u32, prefix: &[u32], order: &[u32], betas: &mut Betas) -> Result<(), Fail>
    ensures ok { OnOk result (reorder_answer prefix.now order.now betas.old ≡ Ok betas.new) }
    ensures cause { IfErr result (HasCause (refused i (reorder_answer prefix.now order.now betas.old))) }
{
    match betas.reorder(prefix, order) {
        Ok(()) => Ok(()),
        Err(fail) => Err(beta_fail(i, fail)),
    }
}

/// Reorder of the children of the prefix.
pub fn reorder(
    alloc: Global,
    i: u32,
    prefix: &[u32],
    order: &[Coeff],
    betas: &mut Betas,
) -> Result<(), Fail>
    ensures ok { OnOk result (reorder_answer prefix.now (order_in order.now) betas.old ≡ Ok betas.new) }
    ensures cause { IfErr result (HasCause (refused i (reorder_answer prefix.now (order_in order.now) betas.old))) }
{
    let _tree = betas.len();
    match betas_from(alloc, order)? {
        None => reorder_by(i, prefix, &[], betas),
        Some(order) => reorder_by(i, prefix, order.as_slice(), betas),
    }
}
