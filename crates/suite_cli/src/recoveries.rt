//! The work of `chlore`: the script that turns the schedules of one SCoP into those of another.

ghost use Rattle.std.specs.Prelude.{◌≡◌, ◌≤◌, IfOk, IfErr, None, Some, length};
ghost use Rattle.suite_base.specs.Limits.{max_input};
ghost use Rattle.scop_core.specs.Assembly.{HasCause};
ghost use Rattle.chlore_recover.specs.Refusals.{recovery_refusal};
ghost use Rattle.suite_cli.specs.ChlorePromise as chlore;

use crate::outcomes::Outcome;
use clay_script::print_script;
use schedule_recovery::recover;
use scop_core::Scop;
use scop_reader::read_scop;
use std::alloc::Global;
use suite_base::{Fail, Refusal, Text};

/// The script that turns the schedules of the SCoP of the first text into those of the second one, as it is
/// printed. The first text is read first.
pub fn recovered_text(alloc: Global, first: &[u8], second: &[u8]) -> Result<Text, Outcome>
    requires first_short { length first.now ≤ max_input }
    requires second_short { length second.now ≤ max_input }
    ensures ok { IfOk result (λ output. chlore.Makes first.now second.now output) }
    ensures err { IfErr result (chlore.IsStop first.now second.now) }
{
    match read_scop(alloc, first) {
        Err(Fail::Memory) => Err(Outcome::Memory),
        Err(Fail::Refused(refusal)) => Err(Outcome::Refused { file: 1, refusal }),
        Ok(original) => match read_scop(alloc, second) {
            Err(Fail::Memory) => Err(Outcome::Memory),
            Err(Fail::Refused(refusal)) => Err(Outcome::Refused { file: 2, refusal }),
            Ok(target) => match recovered_script(alloc, &original, &target) {
                Err(Fail::Memory) => Err(Outcome::Memory),
                Err(Fail::Refused(refusal)) => Err(Outcome::Refused {
                    file: place_of(&refusal),
                    refusal,
                }),
                Ok(output) => Ok(output),
            },
        },
    }
}

// The script for an original and a target, as it is printed.
fn recovered_script(alloc: Global, original: &Scop, target: &Scop) -> Result<Text, Fail>
    ensures ok { IfOk result (λ output. chlore.IsRecoveredText original.now target.now output) }
    ensures err { IfErr result (HasCause (recovery_refusal original.now target.now)) }
{
    match recover(alloc, original, target) {
        Err(fail) => Err(fail),
        Ok(script) => match print_script(alloc, &script) {
            Err(_) => Err(Fail::Memory),
            Ok(output) => Ok(output),
        },
    }
}

// The place of the file that a refusal of an original and a target speaks of; 0 for both.
fn place_of(refusal: &Refusal) -> u8
    ensures { result ≡ chlore.place_of refusal.now }
{
    match refusal {
        Refusal::NotClanForm(_) => 1,
        Refusal::NotRecoverable(_) => 2,
        _ => 0,
    }
}
