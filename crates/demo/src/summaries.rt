//! The summary of a demo.

ghost use Rattle.std.specs.Prelude.{◌≡◌, ◌++◌, IfOk, OnOk};
ghost use Rattle.demo.specs.Summaries as spec;

use std::alloc::Global;
use suite_base::{NoMemory, Text};

/// How many dependence systems there are, how many of them are kept, and how many are dropped.
#[derive(Clone, Copy, Debug, PartialEq, Eq)]
pub struct SystemCounts {
    pub all: usize,
    pub kept: usize,
    pub dropped: usize,
}

/// What a demo counts: the loops of its text, the statements and the systems of their SCoP, the commands of its script,
/// and those of the script that is recovered.
#[derive(Clone, Copy, Debug, PartialEq, Eq)]
pub struct Counts {
    pub loops: u32,
    pub statements: usize,
    pub systems: SystemCounts,
    pub commands: usize,
    pub recovered: usize,
}

/// The summary of these counts, as it is printed.
pub fn summary(alloc: Global, counts: &Counts) -> Result<Text, NoMemory>
    ensures { IfOk result (λ text. text ≡ spec.summary counts.now) }
{
    let mut text = Text::new(alloc);
    push_count(&mut text, b"demo ", counts.loops as usize, b"\n")?;
    push_count(&mut text, b"statements ", counts.statements, b"\n")?;
    push_systems(&mut text, &counts.systems)?;
    push_count(
        &mut text,
        b"clay commands ",
        counts.commands,
        b" accepted\n",
    )?;
    push_count(&mut text, b"chlore commands ", counts.recovered, b"\n")?;
    Ok(text)
}

// Appends a line: a label, a count, and what stands behind it.
#[tactic(auto, unfolding(crate::specs::Summaries::count_line))]
fn push_count(text: &mut Text, label: &[u8], count: usize, end: &[u8]) -> Result<(), NoMemory>
    ensures { OnOk result (text.new ≡ text.old ++ spec.count_line label.now count end.now) }
{
    text.push_bytes(label)?;
    text.push_number(count as i128)?;
    text.push_bytes(end)
}

// Appends the line of the systems.
#[tactic(auto, unfolding(crate::specs::Summaries::systems_line))]
fn push_systems(text: &mut Text, systems: &SystemCounts) -> Result<(), NoMemory>
    ensures { OnOk result (text.new ≡ text.old ++ spec.systems_line systems.now) }
{
    text.push_bytes(b"systems ")?;
    text.push_number(systems.all as i128)?;
    text.push_bytes(b" kept ")?;
    text.push_number(systems.kept as i128)?;
    text.push_bytes(b" dropped ")?;
    text.push_number(systems.dropped as i128)?;
    text.push(b'\n')
}
