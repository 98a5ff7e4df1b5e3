//! The program's words, which contracts see as a list of texts.

ghost use Rattle.std.specs.Prelude.{◌≡◌, ◌<◌, [], ◌∷◌, ◌++◌, length, slice_get, OnOk, OnErr, OnSome};
ghost use Rattle.std.specs.Option.{option_copied};

use crate::lists::List;
use crate::memory::NoMemory;
use std::alloc::Global;
use std::marker::Model;

/// The words after the program's name, in order. It keeps its allocator.
#[derive(Debug, Drop)]
pub struct WordList {
    words: List<String>,
}

impl Model for WordList {
    ghost use Rattle.std.specs.Prelude.{List, ℕ, map};
    ghost use Rattle.std.specs.String.{string_bytes};

    ghost Value = { List (List ℕ) };

    ghost view = { λ w. map (λ s. string_bytes s) w.words };
}

impl WordList {
    /// The empty list of words.
    pub fn new(alloc: Global) -> WordList
        ensures { result ≡ [] }
    {
        WordList {
            words: List::new(alloc),
        }
    }

    /// Appends a copy of `word`. On want of memory the list is as before.
    pub fn push(&mut self, word: &str) -> Result<(), NoMemory>
        ensures ok { OnOk result (self.new ≡ self.old ++ word.now ∷ []) }
        ensures err { OnErr result (self.new ≡ self.old) }
    {
        let copy = String::from_str(self.words.allocator(), word)?;
        self.words.push(copy)
    }

    /// The number of words.
    pub fn len(&self) -> usize
        ensures { result ≡ length self.now }
    {
        self.words.len()
    }

    /// The word at place `k`, from 0; `None` exactly where `k` is not below the length.
    pub fn word(&self, k: usize) -> Option<&str>
        ensures value { option_copied result ≡ slice_get self.now k }
        ensures within { OnSome result (k < length self.now) }
    {
        match self.words.get(k) {
            Some(word) => Some(word.as_str()),
            None => None,
        }
    }
}
