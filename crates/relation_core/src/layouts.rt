//! The printed layout of a part: a line of six numbers, and a line for each row.

ghost use Rattle.std.specs.Prelude.{◌≡◌, ◌<◌, ◌≤◌, [], ◌∷◌, ◌++◌, pos, length, map, OnOk, OnErr};
ghost use Rattle.std.specs.List.{flat_map};
ghost use Rattle.std.specs.Fmt.{decimal, signed_decimal};
ghost use Rattle.relation_core.specs.Systems.{columns, HasLimits};
ghost use Rattle.relation_core.specs.Layouts.{spaced, spaced_count, header_text, row_text, row_line, part_layout};

use crate::part_rows::{PartRow, RowKind};
use crate::parts::Part;
use crate::shapes::Shape;
use row_core::DenseRow;
use suite_base::{NoMemory, Text};

/// Appends the numbers of rows, columns, outputs, inputs, locals and parameters on one line, and each
/// row on a line of its own, as docs/FORMATS.md says. On want of memory the text is as before.
pub fn print_part(text: &mut Text, part: &Part) -> Result<(), NoMemory>
    ensures ok { OnOk result (text.new ≡ text.old ++ part_layout part.now) }
    ensures err { OnErr result (text.new ≡ text.old) }
{
    let mut lines = Text::new(part.allocator());
    append_part(&mut lines, part)?;
    text.push_bytes(lines.bytes())
}

/// As `print_part`, without a text of its own in between: on want of memory some of it may have been
/// appended.
pub fn append_part(text: &mut Text, part: &Part) -> Result<(), NoMemory>
    ensures { OnOk result (text.new ≡ text.old ++ part_layout part.now) }
{
    push_header(text, part.shape(), part.row_count())?;
    text.push(b'\n')?;
    push_rows(text, part.rows())
}

/// Appends a part's header without its newline: the numbers of rows, columns, outputs, inputs, locals
/// and parameters. On want of memory some of it may have been appended.
pub fn print_header(text: &mut Text, part: &Part) -> Result<(), NoMemory>
    ensures { OnOk result (text.new ≡ text.old ++ header_text (length part.now.rows) part.now.shape) }
{
    push_header(text, part.shape(), part.row_count())
}

// Appends the six numbers of a part with so many rows.
fn push_header(text: &mut Text, shape: Shape, rows: usize) -> Result<(), NoMemory>
    requires { HasLimits shape }
    ensures { OnOk result (text.new ≡ text.old ++ header_text rows shape) }
{
    let columns = shape.outputs + shape.inputs + shape.locals + shape.parameters;
    text.push_number(rows as i128)?;
    let counts = [
        columns + 2,
        shape.outputs,
        shape.inputs,
        shape.locals,
        shape.parameters,
    ];
    push_counts(text, &counts)
}

// Appends numbers, each behind a space.
fn push_counts(text: &mut Text, counts: &[usize]) -> Result<(), NoMemory>
    ensures { OnOk result (text.new ≡ text.old ++ flat_map spaced_count counts.now) }
{
    for count in counts {
        push_spaced(text, *count as i128)?;
    }
    Ok(())
}

// Appends the lines of rows.
fn push_rows(text: &mut Text, rows: &[PartRow]) -> Result<(), NoMemory>
    ensures { OnOk result (text.new ≡ text.old ++ flat_map row_line rows.now) }
{
    for row in rows {
        push_line(text, row)?;
    }
    Ok(())
}

// Appends the line of a row.
fn push_line(text: &mut Text, row: &PartRow) -> Result<(), NoMemory>
    ensures { OnOk result (text.new ≡ text.old ++ row_line row.now) }
{
    print_row(text, row)?;
    text.push(b'\n')
}

/// Appends a row without its newline: 0 for an equality or 1 for an inequality, then its entries. On
/// want of memory some of it may have been appended.
pub fn print_row(text: &mut Text, row: &PartRow) -> Result<(), NoMemory>
    ensures { OnOk result (text.new ≡ text.old ++ row_text row.now) }
{
    match row.kind {
        RowKind::Equal => text.push(b'0')?,
        RowKind::AtLeast => text.push(b'1')?,
    }
    push_entries(text, &row.entries)
}

// Appends the entries of a row, each behind a space.
fn push_entries(text: &mut Text, entries: &DenseRow) -> Result<(), NoMemory>
    ensures { OnOk result (text.new ≡ text.old ++ flat_map spaced entries.now) }
{
    for k in 0..entries.len() {
        push_spaced(text, entries.get(k).value())?;
    }
    Ok(())
}

// Appends a number behind a space.
fn push_spaced(text: &mut Text, number: i128) -> Result<(), NoMemory>
    ensures { OnOk result (text.new ≡ text.old ++ spaced number) }
{
    text.push(b' ')?;
    text.push_number(number)
}
