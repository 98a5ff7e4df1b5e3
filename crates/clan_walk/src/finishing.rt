//! What the pieces of a region's SCoP have beside its statements.

ghost use Rattle.std.specs.Prelude.{◌≡◌, ◌<◌, ◌^◌, pos, unsigned_abs, [], ◌∷◌, ◌++◌, IfOk, OnOk};
ghost use Rattle.clan_extract.specs.Regions.{numbered, names_if_any};

use row_core::Coeff;
use scop_data::copies::copied_text;
use std::alloc::Global;
use suite_base::{List, NoMemory, Text};

// Appends an array with its number.
fn push_array(
    alloc: Global,
    arrays: &mut List<(Coeff, Text)>,
    number: i128,
    name: &Text,
) -> Result<(), NoMemory>
    requires { unsigned_abs number < 2 ^ 127 }
    ensures { OnOk result (arrays.new ≡ arrays.old ++ (number, name.now) ∷ []) }
{
    let name = copied_text(alloc, name)?;
    arrays.push((Coeff::bounded(number), name))?;
    Ok(())
}

/// The arrays with their numbers, from 1.
pub fn numbered_arrays(alloc: Global, names: &[Text]) -> Result<List<(Coeff, Text)>, NoMemory>
    ensures { IfOk result (λ made. made ≡ numbered (pos 1) names.now) }
{
    let mut made = List::new(alloc);
    for k in 0..names.len() {
        push_array(alloc, &mut made, k as i128 + 1, &names[k])?;
    }
    Ok(made)
}

/// The names, where there are some.
pub fn some_names(names: List<Text>) -> Option<List<Text>>
    ensures { result ≡ names_if_any names }
{
    if names.len() == 0 { None } else { Some(names) }
}
