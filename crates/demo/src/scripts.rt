//! The script of a demo.

ghost use Rattle.std.specs.Prelude.{◌≡◌, ◌≤◌, ◌-◌, ◌++◌, [], ◌∷◌, pos, map, replicate, IfOk, OnOk};
ghost use Rattle.std.specs.List.{range_with_len};
ghost use Rattle.demo.specs.Inputs as spec;

use clay_script::{Command, Script, Vector};
use row_core::Coeff;
use std::alloc::Global;
use suite_base::NoMemory;

/// The script that makes one loop of the `k` loops of a demo.
#[tactic(auto, unfolding(crate::specs::Inputs::demo_script))]
pub fn demo_script(alloc: Global, k: u32) -> Result<Script, NoMemory>
    requires least { 1 ≤ k }
    requires most { k ≤ 32 }
    ensures { IfOk result (λ script. script ≡ spec.demo_script k) }
{
    let mut script = Script::new(alloc);
    push_shifts(alloc, &mut script, k - 1)?;
    push_fuses(alloc, &mut script, k - 1)?;
    Ok(script)
}

// Appends the shifts of `count` loops, from place 1 on.
fn push_shifts(alloc: Global, script: &mut Script, count: u32) -> Result<(), NoMemory>
    requires { count ≤ 32 }
    ensures { OnOk result (script.new ≡ script.old ++ map spec.shift_of (range_with_len 1 count)) }
{
    for k in 0..count {
        push_shift(alloc, script, k + 1)?;
    }
    Ok(())
}

// Appends the shift of the loop at place `k`, from 0.
fn push_shift(alloc: Global, script: &mut Script, k: u32) -> Result<(), NoMemory>
    ensures { OnOk result (script.new ≡ script.old ++ spec.shift_of k ∷ []) }
{
    let place = Coeff::bounded(k as i128);
    let loops = vector_of(alloc, place)?;
    let parameters = vector_of(alloc, Coeff::ZERO)?;
    script.push(Command::Shift(loops, Coeff::ONE, parameters, place))
}

// Appends `count` fuses of the loop at place 0 with the next one.
fn push_fuses(alloc: Global, script: &mut Script, count: u32) -> Result<(), NoMemory>
    ensures { OnOk result (script.new ≡ script.old ++ replicate count spec.fuse_next) }
{
    for _ in 0..count {
        push_fuse(alloc, script)?;
    }
    Ok(())
}

// Appends one of them.
fn push_fuse(alloc: Global, script: &mut Script) -> Result<(), NoMemory>
    ensures { OnOk result (script.new ≡ script.old ++ spec.fuse_next ∷ []) }
{
    let loops = vector_of(alloc, Coeff::ZERO)?;
    script.push(Command::Fuse(loops))
}

// The vector of one number.
fn vector_of(alloc: Global, number: Coeff) -> Result<Vector, NoMemory>
    ensures { IfOk result (λ vector. vector ≡ number ∷ []) }
{
    let mut vector = Vector::new(alloc);
    vector.push(number)?;
    Ok(vector)
}
