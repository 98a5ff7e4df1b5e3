//! The work of `clay`: the SCoP after a script, where the script keeps the final memory.

ghost use Rattle.std.specs.Prelude.{◌≡◌, ◌≤◌, IfOk, IfErr, length};
ghost use Rattle.suite_base.specs.Limits.{max_commands, max_input};
ghost use Rattle.suite_base.specs.declared.refusals.Fail.TheVariants.{Memory};
ghost use Rattle.scop_core.specs.Layouts.{layout};
ghost use Rattle.scop_core.specs.Validity.{IsValid};
ghost use Rattle.demo.specs.Edits as edit;
ghost use Rattle.suite_cli.specs.ClayPromise as clay;
ghost use Rattle.suite_cli.specs.Promises as promise;

use crate::outcomes::Outcome;
use clay_commands::{Edited, apply};
use clay_script::{Script, read_script};
use legality::{Legal, check};
use scop_core::Scop;
use scop_reader::read_scop;
use scop_writer::print_scop;
use std::alloc::Global;
use suite_base::{Fail, Refusal, Text};

/// The SCoP of the second text after the script of the first one, as it is printed. The script is read
/// first, then the SCoP; then the commands are applied, and the edit is checked.
pub fn edited_text(alloc: Global, first: &[u8], second: &[u8]) -> Result<Text, Outcome>
    requires first_short { length first.now ≤ max_input }
    requires second_short { length second.now ≤ max_input }
    ensures ok { IfOk result (λ output. clay.Makes first.now second.now output) }
    ensures err { IfErr result (clay.IsStop first.now second.now) }
{
    match read_script(alloc, first) {
        Err(Fail::Memory) => Err(Outcome::Memory),
        Err(Fail::Refused(refusal)) => Err(Outcome::Refused { file: 1, refusal }),
        Ok(script) => match read_scop(alloc, second) {
            Err(Fail::Memory) => Err(Outcome::Memory),
            Err(Fail::Refused(refusal)) => Err(Outcome::Refused { file: 2, refusal }),
            Ok(scop) => match edited_scop(alloc, &scop, &script) {
                Err(Fail::Memory) => Err(Outcome::Memory),
                Err(Fail::Refused(refusal)) => Err(Outcome::Refused { file: 1, refusal }),
                Ok(output) => Ok(output),
            },
        },
    }
}

/// A SCoP after a script, as it is printed.
fn edited_scop(alloc: Global, scop: &Scop, script: &Script) -> Result<Text, Fail>
    requires few { length script.now ≤ max_commands }
    ensures ok { IfOk result (λ output. clay.IsEditedText scop.now script.now output) }
    ensures err { IfErr result (promise.FailCause (edit.IsScriptRefused scop.now script.now)) }
{
    scop_is_valid(scop);
    match apply(alloc, scop, script) {
        Err(Fail::Memory) => Err(Fail::Memory),
        Err(Fail::Refused(refusal)) => Err(Fail::Refused(refusal)),
        Ok(made) => match check(alloc, scop, script, &made) {
            Err(Fail::Memory) => Err(Fail::Memory),
            Err(Fail::Refused(refusal)) => Err(Fail::Refused(refusal)),
            Ok(Legal::Illegal(k)) => Err(Fail::Refused(Refusal::Illegal(k))),
            Ok(Legal::Yes) => printed_edit(alloc, &made),
        },
    }
}

// The edited SCoP, as it is printed.
fn printed_edit(alloc: Global, made: &Edited) -> Result<Text, Fail>
    ensures layout { IfOk result (λ output. output ≡ layout made.now.scop) }
    ensures valid { IsValid made.now.scop }
    ensures memory { IfErr result (λ fail. fail ≡ Memory) }
{
    scop_is_valid(&made.scop);
    match print_scop(alloc, &made.scop) {
        Err(_) => Err(Fail::Memory),
        Ok(output) => Ok(output),
    }
}

// Every Scop is valid: a fact for contracts.
fn scop_is_valid(scop: &Scop)
    ensures { IsValid scop.now }
{
    let _count = scop.statement_count();
}
