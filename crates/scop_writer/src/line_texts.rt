//! Lines: of a text, of a number, of names.

ghost use Rattle.std.specs.Prelude.{◌≡◌, ◌<◌, ◌^◌, [], ◌∷◌, ◌++◌, OnOk};
ghost use Rattle.std.specs.List.{flat_map};
ghost use Rattle.scop_core.specs.Layouts.{line, number_line, names_line};

use suite_base::{NoMemory, Text};

/// Appends `bytes` as a line.
pub fn print_line(text: &mut Text, bytes: &[u8]) -> Result<(), NoMemory>
    ensures { OnOk result (text.new ≡ text.old ++ line bytes.now) }
{
    text.push_bytes(bytes)?;
    text.push(b'\n')
}

/// Appends `number` as a line.
pub fn print_number_line(text: &mut Text, number: usize) -> Result<(), NoMemory>
    ensures { OnOk result (text.new ≡ text.old ++ number_line number) }
{
    text.push_number(number as i128)?;
    text.push(b'\n')
}

/// Appends `lines`, each with its newline.
pub fn print_lines(text: &mut Text, lines: &[Text]) -> Result<(), NoMemory>
    ensures { OnOk result (text.new ≡ text.old ++ flat_map line lines.now) }
{
    for bytes in lines {
        print_line(text, bytes.bytes())?;
    }
    Ok(())
}

// Appends each of `names` after one space.
fn print_spaced(text: &mut Text, names: &[Text]) -> Result<(), NoMemory>
    ensures { OnOk result (text.new ≡ text.old ++ flat_map (λ next. 32 ∷ next) names.now) }
{
    for name in names {
        text.push(b' ')?;
        text.push_bytes(name.bytes())?;
    }
    Ok(())
}

/// Appends `names` as a line, with one space between each two, and nothing where there are none.
pub fn print_names(text: &mut Text, names: &[Text]) -> Result<(), NoMemory>
    ensures { OnOk result (text.new ≡ text.old ++ names_line names.now) }
{
    match names {
        [] => Ok(()),
        [first, rest @ ..] => {
            text.push_bytes(first.bytes())?;
            print_spaced(text, rest)?;
            text.push(b'\n')
        }
    }
}
