//! The stages of a demo, one after the other.

ghost use Rattle.std.specs.Prelude.{◌≡◌, ◌≤◌, IfOk, IfErr, OnOk, length};
ghost use Rattle.suite_base.specs.Limits.{max_commands};
ghost use Rattle.suite_base.specs.declared.refusals.Fail.TheVariants.{Memory};
ghost use Rattle.region_extract.specs.Answers.{IsTranslation, Translates};
ghost use Rattle.clay_commands.specs.Afters.{after_script};
ghost use Rattle.demo.specs.Demonstrations as spec;
ghost use Rattle.demo.specs.Edits.{IsScriptAccepted, IsScriptStop};
ghost use Rattle.demo.specs.Inputs as input;

use crate::counting::count_systems;
use crate::scripts::demo_script;
use crate::summaries::{Counts, SystemCounts, summary};
use crate::texts::demo_text;
use clay_commands::{Edited, apply};
use clay_script::Script;
use legality::{Legal, check};
use region_extract::region_scop;
use schedule_recovery::recover;
use scop_core::Scop;
use std::alloc::Global;
use suite_base::{Fail, NoMemory, Refusal, Text};

/// The summary of a demo of `k` loops, from 1 to 32: its C text is translated, the dependences of the SCoP are found and
/// decided, a script fuses the loops into one and is checked, and a script is recovered from both SCoPs.
///
/// # Errors
/// What `region_scop` refuses of the text; what `dependences` refuses of its SCoP; what `apply` refuses of the script;
/// `Illegal` where `check` says so, and what it refuses; what `recover` refuses of the SCoP and the edited one. The first
/// stage with a refusal gives it.
pub fn demonstrate(alloc: Global, k: u32) -> Result<Text, Fail>
    requires least { 1 ≤ k }
    requires most { k ≤ 32 }
    ensures ok { IfOk result (spec.Demonstrates k) }
    ensures err { IfErr result (spec.IsStop k) }
    ensures complete { IfErr result (λ fail. spec.Takes k → fail ≡ Memory) }
{
    match demo_scop(alloc, k) {
        Err(fail) => Err(fail),
        Ok(scop) => counted_demo(alloc, k, &scop),
    }
}

// The SCoP of the text.
fn demo_scop(alloc: Global, k: u32) -> Result<Scop, Fail>
    requires least { 1 ≤ k }
    requires most { k ≤ 32 }
    ensures { Translates (input.demo_text k) result }
{
    match demo_text(alloc, k) {
        Err(NoMemory) => Err(Fail::Memory),
        Ok(text) => region_scop(alloc, text.bytes()),
    }
}

// The summary of a demo with this SCoP.
fn counted_demo(alloc: Global, k: u32, scop: &Scop) -> Result<Text, Fail>
    requires least { 1 ≤ k }
    requires most { k ≤ 32 }
    requires translated { IsTranslation (input.demo_text k) scop.now }
    ensures ok { IfOk result (spec.Demonstrates k) }
    ensures err { IfErr result (spec.IsStop k) }
{
    match count_systems(alloc, scop) {
        Err(fail) => Err(fail),
        Ok(systems) => scripted_demo(alloc, k, scop, systems),
    }
}

// The summary of a demo with this SCoP and so many systems.
fn scripted_demo(alloc: Global, k: u32, scop: &Scop, systems: SystemCounts) -> Result<Text, Fail>
    requires least { 1 ≤ k }
    requires most { k ≤ 32 }
    requires read { spec.IsRead k scop.now systems }
    ensures ok { IfOk result (spec.Demonstrates k) }
    ensures err { IfErr result (spec.IsStop k) }
{
    match demo_script(alloc, k) {
        Err(NoMemory) => Err(Fail::Memory),
        Ok(script) => edited_demo(alloc, k, scop, systems, &script),
    }
}

// The summary of a demo with this SCoP, so many systems, and this script.
fn edited_demo(
    alloc: Global,
    k: u32,
    scop: &Scop,
    systems: SystemCounts,
    script: &Script,
) -> Result<Text, Fail>
    requires most { k ≤ 32 }
    requires read { spec.IsRead k scop.now systems }
    requires script { script.now ≡ input.demo_script k }
    ensures ok { IfOk result (spec.Demonstrates k) }
    ensures err { IfErr result (spec.IsStop k) }
{
    match edited_scop(alloc, scop, script) {
        Err(fail) => Err(fail),
        Ok(made) => recovered_demo(alloc, k, scop, systems, script.len(), &made.scop),
    }
}

// The summary of a demo with this SCoP, so many systems, a script of so many commands, which is accepted, and the SCoP
// after it.
fn recovered_demo(
    alloc: Global,
    k: u32,
    scop: &Scop,
    systems: SystemCounts,
    commands: usize,
    made: &Scop,
) -> Result<Text, Fail>
    requires read { spec.IsRead k scop.now systems }
    requires commands { commands ≡ length (input.demo_script k) }
    requires accepted { IsScriptAccepted scop.now (input.demo_script k) }
    requires made { made.now ≡ spec.after_demo k scop.now }
    ensures ok { IfOk result (spec.Demonstrates k) }
    ensures err { IfErr result (spec.IsStop k) }
{
    match recover(alloc, scop, made) {
        Err(fail) => Err(fail),
        Ok(found) => {
            let counts = Counts {
                loops: k,
                statements: scop.statement_count(),
                systems,
                commands,
                recovered: found.len(),
            };
            match summary(alloc, &counts) {
                Err(NoMemory) => Err(Fail::Memory),
                Ok(text) => Ok(text),
            }
        }
    }
}

// The SCoP after a script that is accepted.
fn edited_scop(alloc: Global, scop: &Scop, script: &Script) -> Result<Edited, Fail>
    requires few { length script.now ≤ max_commands }
    ensures made { IfOk result (λ made. made ≡ after_script scop.now script.now) }
    ensures accepted { OnOk result (IsScriptAccepted scop.now script.now) }
    ensures err { IfErr result (IsScriptStop scop.now script.now) }
{
    match apply(alloc, scop, script) {
        Err(fail) => Err(fail),
        Ok(made) => match check(alloc, scop, script, &made) {
            Err(fail) => Err(fail),
            Ok(Legal::Illegal(k)) => Err(Fail::Refused(Refusal::Illegal(k))),
            Ok(Legal::Yes) => Ok(made),
        },
    }
}
