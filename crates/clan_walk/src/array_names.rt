//! The arrays of a region, with their numbers looked up by name.

ghost use Rattle.std.specs.Prelude.{◌≡◌, ◌<◌, ◌^◌, ℕ, List, pos, cond, Some, bytes_eq, length, IfOk, OnOk};
ghost use Rattle.clan_extract.specs.Regions.{number_in};
ghost use Rattle.clan_walk.specs.Places.{IsNumbered, numbered_as};

use indexmap::IndexMap;
use row_core::Coeff;
use std::alloc::Global;
use std::marker::Model;
use suite_base::{List, NoMemory, Text};

/// Names of arrays in order, and a table of their numbers, so that a look-up does not search the list.
#[derive(Drop)]
pub struct ArrayNames {
    names: List<Text>,
    numbers: IndexMap<Vec<u8>, Coeff>,
}

impl Model for ArrayNames {
    ghost use Rattle.std.specs.Prelude.{List, ℕ};
    ghost use Rattle.clan_walk.specs.Places.{IsNumbered};

    ghost Value = { List (List ℕ) };

    ghost view = { λ arrays. arrays.names };

    ghost invariant = { λ arrays. IsNumbered arrays.names arrays.numbers.entries };
}

// A number of an array.
fn number_of(k: usize) -> Coeff
    ensures { result ≡ pos k }
{
    Coeff::bounded(k as i128)
}

// Gives a name this number, in place of one that it may have.
fn set_number(
    alloc: Global,
    numbers: &mut IndexMap<Vec<u8>, Coeff>,
    name: &[u8],
    number: Coeff,
) -> Result<(), NoMemory>
    ensures { OnOk result ((other : List ℕ) → numbered_as other numbers.new.entries ≡ cond (bytes_eq name.now other) (Some number) (numbered_as other numbers.old.entries)) }
{
    let mut key = Vec::new(alloc);
    key.extend_from_slice(name)?;
    numbers.insert(key, number)?;
    Ok(())
}

// The numbers of names, from 1, set from the last one back: of equal names the first one's stays.
fn numbers_of(alloc: Global, names: &[Text]) -> Result<IndexMap<Vec<u8>, Coeff>, NoMemory>
    ensures { IfOk result (λ made. IsNumbered names.now made.entries) }
{
    let mut numbers = IndexMap::new(alloc);
    let mut left = names.len();
    while left > 0 {
        set_number(
            alloc,
            &mut numbers,
            names[left - 1].bytes(),
            number_of(left),
        )?;
        left -= 1;
    }
    Ok(numbers)
}

impl ArrayNames {
    /// Arrays of these names.
    pub fn new(alloc: Global, names: List<Text>) -> Result<ArrayNames, NoMemory>
        ensures { IfOk result (λ made. made ≡ names) }
    {
        let numbers = numbers_of(alloc, names.as_slice())?;
        Ok(ArrayNames { names, numbers })
    }

    /// The number of arrays.
    pub fn len(&self) -> usize
        ensures { result ≡ length self.now }
    {
        self.names.len()
    }

    /// The names in order.
    pub fn names(&self) -> &[Text]
        ensures { result.now ≡ self.now }
    {
        self.names.as_slice()
    }

    /// The number of the first array of this name, from 1; the number of arrays where there is none.
    pub fn number(&self, name: &[u8]) -> Coeff
        ensures { result ≡ number_in self.now name.now }
    {
        match self.numbers.get(name) {
            Some(number) => *number,
            None => number_of(self.names.len()),
        }
    }
}
