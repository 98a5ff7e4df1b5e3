//! A script applied to a SCoP.

ghost use Rattle.std.specs.Prelude.{◌≡◌, ◌<◌, ◌^◌, None, length, IfErr, IfOk, OnOk};
ghost use Rattle.scop_core.specs.Assembly.{HasCause};
ghost use Rattle.row_core.specs.Dense.{dense_of};
ghost use Rattle.scop_core.specs.ReadBack.{pieces_of};
ghost use Rattle.scop_core.specs.ScopData.{betas_in};
ghost use Rattle.clay_commands.specs.Afters.{after_script, closed, refusal_of};
ghost use Rattle.clay_commands.specs.Drafts.{betas_of, drafted};
ghost use Rattle.clay_commands.specs.Soundness.{IsSound};

use crate::drafting::{dense_vectors, draft, originals, raw_statements};
use crate::edited::Edited;
use crate::leaves::Leaf;
use crate::runs::run;
use beta_tree::Betas;
use clay_script::Script;
use scop_core::{Scop, ScopPieces};
use std::alloc::Global;
use suite_base::{Fail, NoMemory};

// The number of parameters of a SCoP.
fn parameter_count(scop: &Scop) -> usize
    ensures { result ≡ scop.now.context.shape.parameters }
{
    scop.context().shape().parameters
}

// The leaves of a SCoP's draft.
fn drafted_leaves(alloc: Global, scop: &Scop, betas: &Betas) -> Result<Vec<Leaf>, NoMemory>
    requires { betas.now ≡ dense_of (betas_in scop.now.statements) }
    ensures leaves { IfOk result (λ leaves. leaves.items ≡ drafted scop.now) }
    ensures valid { IfOk result (λ leaves. IsSound scop.now.context.shape.parameters leaves.items) }
    ensures vectors { IfOk result (λ leaves. betas.now ≡ betas_of leaves.items) }
{
    let statements = scop.statements();
    let leaves = draft(alloc, betas, statements)?;
    Ok(leaves)
}

// The pieces of a SCoP with these leaves in place of its statements.
fn closed_pieces(alloc: Global, scop: &Scop, leaves: &[Leaf]) -> Result<ScopPieces, NoMemory>
    requires { IsSound scop.now.context.shape.parameters leaves.now }
    ensures { IfOk result (λ pieces. pieces ≡ pieces_of (closed scop.now leaves.now)) }
{
    let parameters = parameter_count(scop);
    let statements = raw_statements(alloc, parameters, leaves)?;
    scop.pieces_with(alloc, statements)
}

// The SCoP with these leaves in place of its statements.
fn close(alloc: Global, scop: &Scop, betas: &Betas, leaves: &[Leaf]) -> Result<Scop, NoMemory>
    requires sound { IsSound scop.now.context.shape.parameters leaves.now }
    requires vectors { betas.now ≡ betas_of leaves.now }
    ensures { IfOk result (λ made. made ≡ closed scop.now leaves.now) }
{
    let _tree = betas.len();
    let _valid = scop.statement_count();
    let pieces = closed_pieces(alloc, scop, leaves)?;
    match Scop::assemble(alloc, pieces) {
        Ok(made) => Ok(made),
        Err(Fail::Memory) => Err(NoMemory),
        Err(Fail::Refused(_)) => unreachable!(),
    }
}

/// The SCoP after a script of fewer than 2^32 commands, and the statement that each of its statements
/// comes from. The betas are numbered densely first; then each command has its effect in turn.
///
/// The refusal is that of the first command that has one, and its first one: `NoBeta`, `NotALoop`,
/// `BadLevel` or `BadArgument` where a condition fails, `Limit` where a count would pass its limit,
/// `Overflow` where a sum of absolute values passes 2^127 - 1.
pub fn apply(alloc: Global, scop: &Scop, script: &Script) -> Result<Edited, Fail>
    requires { length script.now < 2 ^ 32 }
    ensures none { OnOk result (refusal_of scop.now script.now ≡ None) }
    ensures edited { IfOk result (λ edited. edited ≡ after_script scop.now script.now) }
    ensures cause { IfErr result (HasCause (refusal_of scop.now script.now)) }
{
    let mut betas = dense_vectors(alloc, scop)?;
    let mut leaves = drafted_leaves(alloc, scop, &betas)?;
    let parameters = parameter_count(scop);
    if let Err(fail) = run(
        alloc,
        parameters,
        script.as_slice(),
        &mut betas,
        &mut leaves,
    ) {
        return Err(fail);
    }
    let of = originals(alloc, leaves.as_slice())?;
    let scop = close(alloc, scop, &betas, leaves.as_slice())?;
    Ok(Edited { scop, of })
}
