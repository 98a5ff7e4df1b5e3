//! Entries of a sparse row, looked up by their place.

ghost use Rattle.std.specs.Prelude.{◌≡◌, ◌≤◌, length};
ghost use Rattle.row_core.specs.Sparse.{value_at, past, value_among as found, place_from as spec_place_from, Begins};

use crate::coeffs::Coeff;
use crate::entries::Entry;

/// The entries that have not been taken yet.
#[derive(Drop)]
pub struct Rest<'a> {
    pub entries: &'a [Entry],
}

/// Takes the first entry where it stands at `place`, and answers its value; else answers 0.
pub fn take_at(rest: &mut Rest<'_>, place: usize) -> Coeff
    ensures answer { result ≡ value_at place rest.old.entries.now }
    ensures rest { rest.new.entries.now ≡ past place rest.old.entries.now }
{
    match rest.entries {
        [first, others @ ..] if first.place == place => {
            let value = first.value;
            rest.entries = others;
            value
        }
        _ => Coeff::ZERO,
    }
}

/// The place of the first entry, which is `start` or later; `end` where it is not before that, or there is
/// none.
pub fn first_place(rest: &Rest<'_>, start: usize, end: usize) -> usize
    requires begins { Begins start rest.now.entries.now }
    requires range { start ≤ end }
    ensures begins { Begins result rest.now.entries.now }
    ensures from { start ≤ result }
    ensures to { result ≤ end }
{
    match rest.entries {
        [first, ..] => first.place.min(end),
        [] => end,
    }
}

/// The value of the first entry at `place`; 0 where there is none.
pub fn value_among(entries: &[Entry], place: usize) -> Coeff
    ensures { result ≡ found place entries.now }
{
    for entry in entries {
        if entry.place == place {
            return entry.value;
        }
    }
    Coeff::ZERO
}

/// The place of the first entry from place `start` on, where it stands before `end`; else `end`.
pub fn place_from(entries: &[Entry], start: usize, end: usize) -> usize
    ensures { result ≡ spec_place_from start end entries.now }
{
    for entry in entries {
        if entry.place >= start {
            return entry.place.min(end);
        }
    }
    end
}
