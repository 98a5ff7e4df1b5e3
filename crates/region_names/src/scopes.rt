//! Names as spans of the source, and the loops in whose scope they stand.

ghost use Rattle.std.specs.Prelude.{◌≡◌, ◌∷◌, map, IfOk};
ghost use Rattle.clan_extract.specs.Regions.{is_among};
ghost use Rattle.region_trees.specs.Occurrences as occurs;
ghost use Rattle.c_lexer.specs.Symbols.{operator_names};
ghost use Rattle.region_names.specs.Roles.{given};
ghost use Rattle.region_names.specs.Walks.{scope_of};

use crate::roles::Role;
use c_lexer::piece_bytes;
use c_parser::Piece;
use std::alloc::Global;
use suite_base::{List, NoMemory};

/// Whether a loop of the scope has this name.
pub fn is_in_scope(source: &[u8], scope: &[Piece], name: &[u8]) -> bool
    ensures { result ≡ is_among name.now (scope_of source.now scope.now) }
{
    let mut scope = scope;
    while let [loop_name, rest @ ..] = scope {
        if piece_bytes(source, *loop_name) == name {
            return true;
        }
        scope = rest;
    }
    false
}

/// The scope inside a loop of this name.
pub fn scope_inside(alloc: Global, name: Piece, scope: &[Piece]) -> Result<List<Piece>, NoMemory>
    ensures { IfOk result (λ inside. inside ≡ name ∷ scope.now) }
{
    let mut inside = List::new(alloc);
    inside.push(name)?;
    for outer in scope {
        inside.push(*outer)?;
    }
    Ok(inside)
}

/// The role of a plain name: in the scope of a loop of its name; else a parameter at a place of control,
/// and open in a right side.
pub fn plain_role(source: &[u8], scope: &[Piece], control: bool, name: &[u8]) -> Option<Role>
    ensures { given result ≡ occurs.plain_role control (scope_of source.now scope.now) name.now }
{
    if is_in_scope(source, scope, name) {
        Some(Role::Iterator)
    } else if control {
        Some(Role::Parameter)
    } else {
        None
    }
}

/// The role of a name with so many subscripts.
pub fn element_role(
    source: &[u8],
    scope: &[Piece],
    control: bool,
    name: &[u8],
    subscripts: usize,
) -> Option<Role>
    ensures { given result ≡ occurs.role_with control (scope_of source.now scope.now) name.now subscripts }
{
    if subscripts == 0 {
        plain_role(source, scope, control, name)
    } else {
        Some(Role::ArrayOf(subscripts))
    }
}

// The operators of bounds.
const OPERATORS: [&[u8]; 4] = [b"max", b"min", b"ceild", b"floord"];

/// Whether a name before a bracket of arguments is an operator of bounds.
pub fn is_operator(name: &[u8]) -> bool
    ensures { result ≡ is_among name.now operator_names }
{
    is_word(&OPERATORS, name)
}

// Whether a name is one of these words.
fn is_word(words: &[&[u8]], name: &[u8]) -> bool
    ensures { result ≡ is_among name.now (map (λ word. word.now) words.now) }
{
    let mut words = words;
    while let [word, rest @ ..] = words {
        if *word == name {
            return true;
        }
        words = rest;
    }
    false
}
