//! Systems read from a text: each is a printed part, a header of six numbers and its rows. What follows a `#` is
//! a comment. A line of numbers is read as a line of multipliers is.

ghost use Rattle.std.specs.Prelude.{◌≡◌, ◌≤◌, length};
ghost use Rattle.suite_base.specs.Limits.{max_dimensions};
ghost use Rattle.relation_core.specs.Systems.{width};

use farkas_cert::{Certificate, read_cert};
use relation_core::{Part, RowKind, Shape};
use row_core::Coeff;
use std::alloc::Global;
use suite_base::{Lines, MAX_DIMENSIONS, NoMemory, content_line};

/// The systems of a text, up to the first line that is out of place.
pub fn read_systems(alloc: Global, text: &[u8]) -> Result<Vec<Part>, NoMemory> {
    let mut systems = Vec::new(alloc);
    let mut lines = Lines::new(text);
    for _ in 0..text.len() {
        match read_system(alloc, &mut lines)? {
            Some(system) => systems.push(system)?,
            None => return Ok(systems),
        }
    }
    Ok(systems)
}

// The next system, where there is one.
fn read_system(alloc: Global, lines: &mut Lines<'_>) -> Result<Option<Part>, NoMemory> {
    let header = next_numbers(alloc, lines)?;
    let [rows, _, outputs, inputs, locals, parameters] = header.as_slice() else {
        return Ok(None);
    };
    let shape = Shape {
        outputs: small(*outputs),
        inputs: small(*inputs),
        locals: small(*locals),
        parameters: small(*parameters),
    };
    let mut system = Part::new(alloc, shape);
    for _ in 0..small(*rows) {
        if !read_row(alloc, lines, &mut system)? {
            return Ok(None);
        }
    }
    Ok(Some(system))
}

// Reads one row; `false` where the line is none.
fn read_row(alloc: Global, lines: &mut Lines<'_>, system: &mut Part) -> Result<bool, NoMemory> {
    let numbers = next_numbers(alloc, lines)?;
    let [kind, entries @ ..] = numbers.as_slice() else {
        return Ok(false);
    };
    if entries.len() != system.width() {
        return Ok(false);
    }
    let kind = if kind.is_zero() {
        RowKind::Equal
    } else {
        RowKind::AtLeast
    };
    system.push_row(kind, entries)?;
    Ok(true)
}

// The numbers of the next line that has any; none at the end of the text, or where a word is no number.
fn next_numbers(alloc: Global, lines: &mut Lines<'_>) -> Result<Certificate, NoMemory> {
    for _ in 0..usize::MAX {
        let Some(line) = lines.next() else {
            return Ok(Certificate::new(alloc));
        };
        let Some(numbers) = read_cert(alloc, content_line(line))? else {
            return Ok(Certificate::new(alloc));
        };
        if numbers.len() > 0 {
            return Ok(numbers);
        }
    }
    Ok(Certificate::new(alloc))
}

// A number of rows or columns, from 0 to 65,536.
fn small(number: Coeff) -> usize
    ensures { result ≤ max_dimensions }
{
    let value = number.value();
    if value < 0 {
        0
    } else if value > MAX_DIMENSIONS as i128 {
        MAX_DIMENSIONS
    } else {
        value as usize
    }
}
