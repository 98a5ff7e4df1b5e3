//! The answer to whether a script may be applied.

ghost use Rattle.std.specs.Prelude.{◌≡◌, IfOk};
ghost use Rattle.scop_core.specs.Validity.{IsValid};
ghost use Rattle.clay_commands.specs.Afters.{after_script, IsFormed};
ghost use Rattle.legality.specs.Answers.{IsAnswer};
ghost use Rattle.legality.specs.Memories.{KeepsMemory};
ghost use Rattle.legality.specs.Violations.{edit_of};

use crate::checking::check_edit;
use crate::legal::Legal;
use clay_commands::Edited;
use clay_script::Script;
use scop_core::Scop;
use std::alloc::Global;
use suite_base::Fail;

/// Decides whether a script may be applied to a SCoP. No condition of the script fails, and `edited` is what it makes of
/// the SCoP. The violation systems of all dependences are decided in order.
///
/// `Limit(Systems, 0)` comes exactly where the new statements have more than 65,536 dependences in the order of their
/// originals, and before every other answer. `Yes` comes where no violation system has a rational point: then the edited
/// SCoP ends with the memory of the old one, for all parameter values in context at which the old one has a run.
/// `Illegal(k)` comes where violation system k, from 1, is the first with a rational point. `Overflow(System, k)` and
/// `TooManyRows(k)` come only where the peak of violation system k passes 2^127 - 1 or 16,384 rows, and none before it
/// has a point.
pub fn check(alloc: Global, scop: &Scop, script: &Script, edited: &Edited) -> Result<Legal, Fail>
    requires formed { IsFormed scop.now script.now }
    requires edited { edited.now ≡ after_script scop.now script.now }
    ensures answer { IsAnswer (edit_of scop.now edited.now) result }
    ensures memory { IfOk result (λ legal. legal ≡ Legal.Yes → KeepsMemory scop.now edited.now.scop) }
{
    scop_is_valid(scop);
    scop_is_valid(&edited.scop);
    let _commands = script.len();
    check_edit(alloc, scop, edited)
}

// Every Scop is valid: a fact for contracts.
fn scop_is_valid(scop: &Scop)
    ensures { IsValid scop.now }
{
    let _count = scop.statement_count();
}
