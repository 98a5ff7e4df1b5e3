//! The lines of the block.

ghost use Rattle.std.specs.Prelude.{◌≡◌, ◌<◌, ◌^◌, [], ◌∷◌, ◌++◌, length, map, true, IfOk, IfSome, OnOk};
ghost use Rattle.std.specs.Fmt.{decimal};
ghost use Rattle.relation_core.specs.Layouts.{header_text, row_text};
ghost use Rattle.farkas_cert.specs.Texts.{certificate_line};
ghost use Rattle.relation_core.specs.Systems.{IsWellFormed};
ghost use Rattle.row_core.specs.Rows.{AreCoefficients};
ghost use Rattle.scop_core.specs.Printable.{are_kept_lines};
ghost use Rattle.dependence_blocks.specs.Blocks as spec;
ghost use Rattle.dependence_blocks.specs.KeptLines.{HasRange, IsReadable};

use dependence_systems::{Dep, DepKind};
use farkas_cert::{Certificate, print_multipliers};
use relation_core::{Part, PartRow, print_header, print_row};
use row_core::Coeff;
use scop_core::Extension;
use std::alloc::Global;
use suite_base::{List, NoMemory, Text};

/// The extension of these lines.
pub fn block(alloc: Global, lines: List<Text>) -> Result<Extension, NoMemory>
    ensures { IfOk result (λ made. made ≡ spec.block_of lines) }
{
    let mut name = Text::new(alloc);
    name.push_bytes(b"suite_dependences")?;
    Ok(Extension { name, lines })
}

/// Appends the first line, the number of systems. On want of memory the lines are as before.
pub fn print_count(alloc: Global, lines: &mut List<Text>, count: usize) -> Result<(), NoMemory>
    ensures lines { OnOk result (lines.new ≡ lines.old ++ decimal count ∷ []) }
    ensures kept { OnOk result (are_kept_lines spec.block_name lines.old ≡ true → are_kept_lines spec.block_name lines.new ≡ true) }
{
    push_count(alloc, lines, count)
}

// Appends a line with a count.
fn push_count(alloc: Global, lines: &mut List<Text>, count: usize) -> Result<(), NoMemory>
    ensures { OnOk result (lines.new ≡ lines.old ++ decimal count ∷ []) }
{
    let mut line = Text::new(alloc);
    line.push_number(count as i128)?;
    lines.push(line)
}

/// Appends the lines of one entry: its head, then the system's header and rows where it is kept, or the
/// certificate's multipliers where it is dropped. On want of memory some lines may have been appended.
pub fn print_entry(
    alloc: Global,
    lines: &mut List<Text>,
    entry: &Dep,
    system: &Part,
    certificate: &Option<Certificate>,
) -> Result<(), NoMemory>
    ensures lines { OnOk result (lines.new ≡ lines.old ++ spec.entry_lines entry.now system.now certificate.now) }
    ensures kept { OnOk result (are_kept_lines spec.block_name lines.old ≡ true → are_kept_lines spec.block_name lines.new ≡ true) }
    ensures readable { IsReadable entry.now system.now certificate.now }
{
    entry_is_readable(entry, system, certificate);
    print_lines(alloc, lines, entry, system, certificate)
}

// Appends the lines of one entry.
fn print_lines(
    alloc: Global,
    lines: &mut List<Text>,
    entry: &Dep,
    system: &Part,
    certificate: &Option<Certificate>,
) -> Result<(), NoMemory>
    ensures { OnOk result (lines.new ≡ lines.old ++ spec.entry_lines entry.now system.now certificate.now) }
{
    match certificate {
        None => {
            lines.push(head(alloc, entry, b"kept")?)?;
            print_system(alloc, lines, system)
        }
        Some(multipliers) => {
            lines.push(head(alloc, entry, b"dropped")?)?;
            lines.push(multiplier_line(alloc, multipliers)?)
        }
    }
}

// The head of an entry with its last word.
fn head(alloc: Global, entry: &Dep, verdict: &[u8]) -> Result<Text, NoMemory>
    ensures { IfOk result (λ line. line ≡ spec.head_line entry.now verdict.now) }
{
    let mut line = Text::new(alloc);
    line.push_bytes(kind_word(entry.kind))?;
    push_spaced(&mut line, entry.source)?;
    push_spaced(&mut line, entry.target)?;
    push_spaced(&mut line, entry.source_access)?;
    push_spaced(&mut line, entry.target_access)?;
    push_spaced(&mut line, entry.source_part)?;
    push_spaced(&mut line, entry.target_part)?;
    push_spaced(&mut line, entry.level)?;
    line.push(b' ')?;
    line.push_bytes(verdict)?;
    Ok(line)
}

/// The first word of an entry.
pub fn kind_word(kind: DepKind) -> &'static [u8]
    ensures { result.now ≡ spec.kind_word kind }
{
    match kind {
        DepKind::Raw => b"RAW",
        DepKind::War => b"WAR",
        DepKind::Waw => b"WAW",
    }
}

// Appends a space and a number.
fn push_spaced(line: &mut Text, number: u32) -> Result<(), NoMemory>
    ensures { OnOk result (line.new ≡ line.old ++ 32 ∷ decimal number) }
{
    line.push(b' ')?;
    line.push_number(number as i128)
}

// The multipliers on a line.
fn multiplier_line(alloc: Global, certificate: &Certificate) -> Result<Text, NoMemory>
    ensures { IfOk result (λ line. line ≡ certificate_line certificate.now) }
{
    let mut line = Text::new(alloc);
    print_multipliers(&mut line, certificate)?;
    Ok(line)
}

// Appends the header and the rows of a system.
fn print_system(alloc: Global, lines: &mut List<Text>, system: &Part) -> Result<(), NoMemory>
    ensures { OnOk result (lines.new ≡ lines.old ++ spec.system_lines system.now) }
{
    let mut header = Text::new(alloc);
    print_header(&mut header, system)?;
    lines.push(header)?;
    print_rows(alloc, lines, system.rows())
}

// Appends a line for each row.
fn print_rows(alloc: Global, lines: &mut List<Text>, rows: &[PartRow]) -> Result<(), NoMemory>
    ensures { OnOk result (lines.new ≡ lines.old ++ map row_text rows.now) }
{
    for row in rows {
        lines.push(row_line(alloc, row)?)?;
    }
    Ok(())
}

// A row on a line.
fn row_line(alloc: Global, row: &PartRow) -> Result<Text, NoMemory>
    ensures { IfOk result (λ line. line ≡ row_text row.now) }
{
    let mut line = Text::new(alloc);
    print_row(&mut line, row)?;
    Ok(line)
}

/// All numbers of an entry's lines fit their types: a fact for contracts.
pub fn entry_is_readable(entry: &Dep, system: &Part, certificate: &Option<Certificate>)
    ensures { IsReadable entry.now system.now certificate.now }
{
    entry_has_range(entry);
    system_has_range(system);
    certificate_has_range(certificate);
}

// The numbers of an entry fit their type: a fact for contracts.
fn entry_has_range(entry: &Dep)
    ensures { HasRange entry.now }
{
    let Dep {
        kind: _,
        source: _source,
        target: _target,
        source_access: _source_access,
        target_access: _target_access,
        source_part: _source_part,
        target_part: _target_part,
        level: _level,
    } = *entry;
}

// The rows of a system are as wide as its shape and can be counted: a fact for contracts.
fn system_has_range(system: &Part)
    ensures formed { IsWellFormed system.now.shape system.now.rows }
    ensures count { length system.now.rows < 2 ^ 64 }
{
    let _rows = system.row_count();
}

// The multipliers of a certificate are coefficients: a fact for contracts.
fn certificate_has_range(certificate: &Option<Certificate>)
    ensures { IfSome certificate.now AreCoefficients }
{
    match certificate {
        None => {}
        Some(found) => multipliers_have_range(found.as_slice()),
    }
}

// The same for a list.
fn multipliers_have_range(multipliers: &[Coeff])
    ensures { AreCoefficients multipliers.now }
{
    for multiplier in multipliers {
        let _value = multiplier.value();
    }
}
