//! The occurrences of single names.

ghost use Rattle.std.specs.Prelude.{◌≡◌, OnOk};
ghost use Rattle.region_names.specs.Registers.{after, told};
ghost use Rattle.region_names.specs.Walks.{element_name, function_name, head_name, left_name};

use crate::registers::Register;
use crate::roles::Role;
use crate::scopes::{element_role, is_in_scope, is_operator};
use c_lexer::piece_bytes;
use c_parser::{Piece, Target};
use suite_base::NoMemory;

/// The name of an element in a value: plain, or of an array.
pub fn tell_element<'a>(
    source: &'a [u8],
    scope: &[Piece],
    control: bool,
    target: &Target,
    register: &mut Register<'a>,
) -> Result<(), NoMemory>
    ensures { OnOk result (register.new ≡ told register.old (element_name source.now scope.now control target.now)) }
{
    let name = piece_bytes(source, target.name);
    let role = element_role(source, scope, control, name, target.subscripts.len());
    register.tell(name, role, false, target.name.from)
}

/// The name of an element on a left side: an array, of no subscripts too.
pub fn tell_left<'a>(
    source: &'a [u8],
    target: &Target,
    register: &mut Register<'a>,
) -> Result<(), NoMemory>
    ensures { OnOk result (register.new ≡ told register.old (left_name source.now target.now)) }
{
    let name = piece_bytes(source, target.name);
    let role = Role::ArrayOf(target.subscripts.len());
    register.tell(name, Some(role), false, target.name.from)
}

/// A called name; the operators of bounds are no names.
pub fn tell_function<'a>(
    source: &'a [u8],
    name: Piece,
    register: &mut Register<'a>,
) -> Result<(), NoMemory>
    ensures { OnOk result (register.new ≡ after register.old (function_name source.now name)) }
{
    let bytes = piece_bytes(source, name);
    if is_operator(bytes) {
        return Ok(());
    }
    register.tell(bytes, Some(Role::Function), false, name.from)
}

/// The name of a loop, inside these loops.
pub fn tell_loop_name<'a>(
    source: &'a [u8],
    scope: &[Piece],
    name: Piece,
    register: &mut Register<'a>,
) -> Result<(), NoMemory>
    ensures { OnOk result (register.new ≡ told register.old (head_name source.now scope.now name)) }
{
    let bytes = piece_bytes(source, name);
    let shadows = is_in_scope(source, scope, bytes);
    register.tell(bytes, Some(Role::Iterator), shadows, name.from)
}
