//! What the types of pieces hold, as facts: functions that go over pieces, and do nothing else.

ghost use Rattle.std.specs.Prelude.{All, IfSome, ◌<◌, ◌^◌, unsigned_abs};
ghost use Rattle.scop_core.specs.Held.{IsFormed, StatementIsHeld, IsHeld};

use relation_core::Relation;
use row_core::Coeff;
use scop_data::{AccessKind, RawStatement, ScopPieces};
use suite_base::{List, Text};

// Every part of a relation is well-formed.
fn parts_are_formed(relation: &Relation)
    ensures { All IsFormed relation.now }
{
    let parts = relation.parts();
    for part in parts {
        let _rows = part.row_count();
    }
}

// Every part of every access is.
fn accesses_are_formed(accesses: &[(AccessKind, Relation)])
    ensures { All (λ access. All IsFormed access.1) accesses.now }
{
    for access in accesses {
        parts_are_formed(&access.1);
    }
}

// The parts of a statement are, and its extensions can be counted.
fn statement_is_held(raw: &RawStatement)
    ensures { StatementIsHeld raw.now }
{
    parts_are_formed(&raw.domain);
    parts_are_formed(&raw.scattering);
    accesses_are_formed(raw.accesses.as_slice());
    let _extensions = raw.extensions.len();
}

// Every statement is held.
fn statements_are_held(raws: &[RawStatement])
    ensures { All StatementIsHeld raws.now }
{
    for raw in raws {
        statement_is_held(raw);
    }
}

// The identifiers of arrays are in range.
fn arrays_are_small(arrays: &[(Coeff, Text)])
    ensures { All (λ array. unsigned_abs array.0 < 2 ^ 127) arrays.now }
{
    for array in arrays {
        let _identifier = array.0.value();
    }
}

// The same where arrays are present.
fn arrays_are_held(arrays: &Option<List<(Coeff, Text)>>)
    ensures { IfSome arrays.now (All (λ array. unsigned_abs array.0 < 2 ^ 127)) }
{
    match arrays {
        None => {}
        Some(arrays) => arrays_are_small(arrays.as_slice()),
    }
}

/// The pieces are such as types hold: parts are well-formed, numbers are in range.
pub fn pieces_are_held(pieces: &ScopPieces)
    ensures { IsHeld pieces.now }
{
    let _rows = pieces.context.row_count();
    statements_are_held(pieces.statements.as_slice());
    arrays_are_held(&pieces.arrays);
}
