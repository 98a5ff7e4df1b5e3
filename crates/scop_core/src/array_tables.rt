//! The arrays of a SCoP: names by their identifiers, in order.

ghost use Rattle.std.specs.Prelude.{◌≡◌, ◌<◌, [], ◌∷◌, ◌++◌, length, slice_get, take, true, None, Some, MatchOption, OnOk, IfOk, IfSome};
ghost use Rattle.scop_core.specs.Printable.{are_arrays, has_no_array};

use indexmap::IndexMap;
use row_core::Coeff;
use scop_data::copies::copied_text;
use std::alloc::Global;
use std::marker::Model;
use suite_base::{List, NoMemory, Text};

/// The names of arrays by their identifiers, in the order in which they were added.
#[derive(Drop)]
pub struct ArrayTable {
    names: IndexMap<Coeff, Text>,
}

impl Model for ArrayTable {
    ghost use Rattle.std.specs.Prelude.{List, ℤ, ℕ};

    ghost Value = { List (ℤ × List ℕ) };

    ghost view = { λ table. table.names.entries };
}

impl ArrayTable {
    // The empty table.
    fn new(alloc: Global) -> ArrayTable
        ensures { result ≡ [] }
    {
        ArrayTable {
            names: IndexMap::new(alloc),
        }
    }

    /// The number of arrays.
    pub fn len(&self) -> usize
        ensures { result ≡ length self.now }
    {
        self.names.len()
    }

    /// The identifier and the name of array `k`, from 0; `None` exactly where there is no such array.
    pub fn get(&self, k: usize) -> Option<(Coeff, &Text)>
        ensures { MatchOption result (slice_get self.now k ≡ None) (λ array. slice_get self.now k ≡ Some (array.0, array.1.now)) }
    {
        match self.names.get_index(k) {
            None => None,
            Some((identifier, name)) => Some((*identifier, name)),
        }
    }

    // Adds an array with a copy of this name, whose identifier no other one has.
    fn push_copy(&mut self, alloc: Global, identifier: Coeff, name: &Text) -> Result<(), NoMemory>
        requires { has_no_array identifier self.old ≡ true }
        ensures { OnOk result (self.new ≡ self.old ++ (identifier, name.now) ∷ []) }
    {
        let name = copied_text(alloc, name)?;
        self.names.insert(identifier, name)?;
        Ok(())
    }
}

// The table of a list of arrays, whose identifiers are distinct.
fn filled(alloc: Global, arrays: &[(Coeff, Text)]) -> Result<ArrayTable, NoMemory>
    requires { are_arrays arrays.now ≡ true }
    ensures { IfOk result (λ made. made ≡ arrays.now) }
{
    let mut made = ArrayTable::new(alloc);
    for array in arrays {
        made.push_copy(alloc, array.0, &array.1)?;
    }
    Ok(made)
}

// A copy of a table.
fn copied(alloc: Global, table: &ArrayTable) -> Result<ArrayTable, NoMemory>
    requires { are_arrays table.now ≡ true }
    ensures { IfOk result (λ made. made ≡ table.now) }
{
    let mut made = ArrayTable::new(alloc);
    for k in 0..table.len() {
        match table.get(k) {
            None => unreachable!(),
            Some(array) => made.push_copy(alloc, array.0, array.1)?,
        }
    }
    Ok(made)
}

/// The table of arrays, where they are present.
pub fn table_of(
    alloc: Global,
    arrays: &Option<List<(Coeff, Text)>>,
) -> Result<Option<ArrayTable>, NoMemory>
    requires { IfSome arrays.now (λ own. are_arrays own ≡ true) }
    ensures { IfOk result (λ made. made ≡ arrays.now) }
{
    match arrays {
        None => Ok(None),
        Some(arrays) => Ok(Some(filled(alloc, arrays.as_slice())?)),
    }
}

/// A copy of a table, where it is present.
pub fn copied_table(
    alloc: Global,
    table: &Option<ArrayTable>,
) -> Result<Option<ArrayTable>, NoMemory>
    requires { IfSome table.now (λ own. are_arrays own ≡ true) }
    ensures { IfOk result (λ made. made ≡ table.now) }
{
    match table {
        None => Ok(None),
        Some(own) => Ok(Some(copied(alloc, own)?)),
    }
}
