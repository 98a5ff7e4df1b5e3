//! The C text of a demo.

ghost use Rattle.std.specs.Prelude.{◌≡◌, ◌≤◌, ◌++◌, IfOk, OnOk};
ghost use Rattle.std.specs.List.{flat_map, range_with_len};
ghost use Rattle.demo.specs.Inputs as spec;

use std::alloc::Global;
use suite_base::{NoMemory, Text};

/// The C text of a demo of `k` loops, which are from 1 to 32: the region of loops that each read the array that the one
/// before writes, from array `A0` on. It has 86 bytes for one loop, 57 more for each loop up to 9, 59 for loop 10, and 60
/// for each one behind it, 1,920 in all for 32.
pub fn demo_text(alloc: Global, k: u32) -> Result<Text, NoMemory>
    requires least { 1 ≤ k }
    requires most { k ≤ 32 }
    ensures { IfOk result (λ text. text ≡ spec.demo_text k) }
{
    let mut text = Text::new(alloc);
    text.push_bytes(b"#pragma scop\n")?;
    push_loops(&mut text, k)?;
    text.push_bytes(b"#pragma endscop\n")?;
    Ok(text)
}

// Appends the lines of `count` loops.
fn push_loops(text: &mut Text, count: u32) -> Result<(), NoMemory>
    requires { count ≤ 32 }
    ensures { OnOk result (text.new ≡ text.old ++ flat_map spec.loop_lines (range_with_len 0 count)) }
{
    for k in 0..count {
        push_loop(text, k)?;
    }
    Ok(())
}

// Appends the lines of loop `k`, from 0.
#[tactic(auto, unfolding(crate::specs::Inputs::loop_lines))]
fn push_loop(text: &mut Text, k: u32) -> Result<(), NoMemory>
    requires { k ≤ 32 }
    ensures { OnOk result (text.new ≡ text.old ++ spec.loop_lines k) }
{
    text.push_bytes(b"for (i = 1; i < N - 1; i++)\n")?;
    push_assignment(text, k)?;
    Ok(())
}

// Appends its assignment.
#[tactic(auto, unfolding(crate::specs::Inputs::assignment_line))]
fn push_assignment(text: &mut Text, k: u32) -> Result<(), NoMemory>
    requires { k ≤ 32 }
    ensures { OnOk result (text.new ≡ text.old ++ spec.assignment_line k) }
{
    text.push_bytes(b"  ")?;
    push_name(text, k + 1)?;
    text.push_bytes(b"[i] = ")?;
    push_name(text, k)?;
    text.push_bytes(b"[i-1] + ")?;
    push_name(text, k)?;
    text.push_bytes(b"[i+1];\n")
}

// Appends the name of array `k`.
#[tactic(auto, unfolding(crate::specs::Inputs::array_name))]
fn push_name(text: &mut Text, k: u32) -> Result<(), NoMemory>
    ensures { OnOk result (text.new ≡ text.old ++ spec.array_name k) }
{
    text.push(b'A')?;
    text.push_number(k as i128)
}
