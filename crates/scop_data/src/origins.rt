//! The original of each statement of an edited SCoP.

ghost use Rattle.std.specs.Prelude.{◌≡◌, ◌<◌, [], ◌∷◌, ◌++◌, length, slice_get, OnOk, OnErr, OnSome};
ghost use Rattle.std.specs.Option.{option_copied};

use std::alloc::Global;
use std::marker::Model;
use suite_base::{List, NoMemory};

/// For each statement the number of the statement that it is a piece of, from 1.
#[derive(Debug, Drop)]
pub struct Pieces {
    originals: List<u32>,
}

impl Model for Pieces {
    ghost use Rattle.std.specs.Prelude.{List, ℕ};

    ghost Value = { List ℕ };

    ghost view = { λ pieces. pieces.originals };
}

impl Pieces {
    /// The empty list.
    pub fn new(alloc: Global) -> Pieces
        ensures { result ≡ [] }
    {
        Pieces {
            originals: List::new(alloc),
        }
    }

    /// The number of entries.
    pub fn len(&self) -> usize
        ensures { result ≡ length self.now }
    {
        self.originals.len()
    }

    /// The entry at place `k`, from 0; `None` exactly where `k` is not below the length.
    pub fn get(&self, k: usize) -> Option<&u32>
        ensures value { option_copied result ≡ slice_get self.now k }
        ensures within { OnSome result (k < length self.now) }
    {
        self.originals.get(k)
    }

    /// Appends `original`. On want of memory the list is as before.
    pub fn push(&mut self, original: u32) -> Result<(), NoMemory>
        ensures ok { OnOk result (self.new ≡ self.old ++ original ∷ []) }
        ensures err { OnErr result (self.new ≡ self.old) }
    {
        self.originals.push(original)
    }
}
