//! A vector of a script: the numbers between square brackets.

ghost use Rattle.std.specs.Prelude.{◌≡◌, ◌<◌, [], ◌∷◌, ◌++◌, length, slice_get, IfOk, OnOk, OnErr, OnSome};
ghost use Rattle.std.specs.Option.{option_copied};
ghost use Rattle.row_core.specs.Rows.{AreCoefficients};

use row_core::Coeff;
use std::alloc::Global;
use std::marker::Model;
use suite_base::{List, NoMemory};

/// A list of coefficients: a beta prefix, an order of children, or coefficients of iterators or
/// parameters. Contracts see the list of integers.
#[derive(Debug, Drop)]
pub struct Vector {
    numbers: List<Coeff>,
}

impl Model for Vector {
    ghost use Rattle.std.specs.Prelude.{List, ℤ};
    ghost use Rattle.std.specs.Coded.{coded_list, coded_ℤ};
    ghost use Rattle.row_core.specs.Rows.{AreCoefficients};

    ghost Value = { List ℤ };

    ghost coded = { coded_list coded_ℤ };

    ghost view = { λ v. v.numbers };

    ghost invariant = { λ v. AreCoefficients v.numbers };
}

impl Vector {
    /// The empty vector.
    pub fn new(alloc: Global) -> Vector
        ensures { result ≡ [] }
    {
        Vector {
            numbers: List::new(alloc),
        }
    }

    /// The empty vector, with room for `capacity` numbers.
    pub fn with_capacity(alloc: Global, capacity: usize) -> Result<Vector, NoMemory>
        ensures { IfOk result (λ vector. vector ≡ []) }
    {
        Ok(Vector {
            numbers: List::with_capacity(alloc, capacity)?,
        })
    }

    /// Appends a number. On want of memory the vector is as before.
    pub fn push(&mut self, item: Coeff) -> Result<(), NoMemory>
        ensures ok { OnOk result (self.new ≡ self.old ++ item ∷ []) }
        ensures err { OnErr result (self.new ≡ self.old) }
    {
        let _in_range = item.value();
        self.numbers.push(item)
    }

    /// The number at place `k`, from 0; `None` exactly where `k` is not below the length.
    pub fn get(&self, k: usize) -> Option<&Coeff>
        ensures value { option_copied result ≡ slice_get self.now k }
        ensures within { OnSome result (k < length self.now) }
    {
        self.numbers.get(k)
    }

    /// How many numbers there are.
    pub fn len(&self) -> usize
        ensures answer { result ≡ length self.now }
        ensures range { AreCoefficients self.now }
    {
        self.numbers.len()
    }

    /// The numbers as a slice.
    pub fn as_slice(&self) -> &[Coeff]
        ensures answer { result.now ≡ self.now }
        ensures range { AreCoefficients self.now }
    {
        self.numbers.as_slice()
    }
}
