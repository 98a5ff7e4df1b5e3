//! One command at the end of a script.

ghost use Rattle.std.specs.Prelude.{◌≡◌, [], ◌∷◌, ◌++◌, ◌+◌, ◌<◌, ◌^◌, pos, OnOk};
ghost use Rattle.clay_script.specs.declared.commands.Command.TheVariants as command;
ghost use Rattle.chlore_recover.specs.Strategy.{as_prefix};

use crate::prefixes::{child_prefix, copied, order_of, outer_prefix, prefix_of};
use clay_script::{Command, Script, Vector};
use row_core::Coeff;
use scop_core::Affine;
use std::alloc::Global;
use suite_base::NoMemory;

// A number of a level, as an argument.
fn level_number(k: usize) -> Coeff
    ensures { result ≡ pos k }
{
    Coeff::bounded(k as i128)
}

/// Appends the fission, at child 1, of a child of the loop with these entries.
pub fn push_fission(
    alloc: Global,
    entries: &[u32],
    child: u32,
    script: &mut Script,
) -> Result<(), NoMemory>
    ensures { OnOk result (script.new ≡ script.old ++ command.Fission (as_prefix (entries.now ++ child ∷ [])) (pos 1) ∷ []) }
{
    let prefix = child_prefix(alloc, entries, child)?;
    script.push(Command::Fission(prefix, Coeff::ONE))
}

/// Appends the fuse of the loop with these entries and its next sibling.
pub fn push_fuse(alloc: Global, entries: &[u32], script: &mut Script) -> Result<(), NoMemory>
    ensures { OnOk result (script.new ≡ script.old ++ command.Fuse (as_prefix entries.now) ∷ []) }
{
    let prefix = prefix_of(alloc, entries)?;
    script.push(Command::Fuse(prefix))
}

/// Appends the reorder of all outer loops.
pub fn push_reorder(alloc: Global, order: &[usize], script: &mut Script) -> Result<(), NoMemory>
    ensures { OnOk result (script.new ≡ script.old ++ command.Reorder [] (as_prefix order.now) ∷ []) }
{
    let numbers = order_of(alloc, order)?;
    script.push(Command::Reorder(Vector::new(alloc), numbers))
}

/// Appends the reverse of a level in an outer loop.
pub fn push_reverse(
    alloc: Global,
    number: u32,
    level: usize,
    script: &mut Script,
) -> Result<(), NoMemory>
    ensures { OnOk result (script.new ≡ script.old ++ command.Reverse (pos number ∷ []) (pos level) ∷ []) }
{
    let prefix = outer_prefix(alloc, number)?;
    script.push(Command::Reverse(prefix, level_number(level)))
}

/// Appends the skew of a level by another one in an outer loop.
pub fn push_skew(
    alloc: Global,
    number: u32,
    level: usize,
    other: usize,
    factor: Coeff,
    script: &mut Script,
) -> Result<(), NoMemory>
    ensures { OnOk result (script.new ≡ script.old ++ command.Skew (pos number ∷ []) (pos level) (pos other) factor ∷ []) }
{
    let prefix = outer_prefix(alloc, number)?;
    script.push(Command::Skew(prefix, level_number(level), level_number(other), factor))
}

/// Appends the interchange of two levels in an outer loop.
pub fn push_interchange(
    alloc: Global,
    number: u32,
    level: usize,
    other: usize,
    script: &mut Script,
) -> Result<(), NoMemory>
    ensures { OnOk result (script.new ≡ script.old ++ command.Interchange (pos number ∷ []) (pos level) (pos other) ∷ []) }
{
    let prefix = outer_prefix(alloc, number)?;
    script.push(Command::Interchange(prefix, level_number(level), level_number(other)))
}

/// Appends the shift of a level in an outer loop by the parameters and the constant of a form.
pub fn push_shift(
    alloc: Global,
    number: u32,
    level: usize,
    form: &Affine,
    script: &mut Script,
) -> Result<(), NoMemory>
    ensures { OnOk result (script.new ≡ script.old ++ command.Shift (pos number ∷ []) (pos level) form.now.parameters form.now.constant ∷ []) }
{
    let prefix = outer_prefix(alloc, number)?;
    let parameters = copied(alloc, form.parameters())?;
    script.push(Command::Shift(prefix, level_number(level), parameters, form.constant()))
}
