//! A relation: a union of parts.

ghost use Rattle.std.specs.Prelude.{◌≡◌, ◌<◌, [], ◌∷◌, ◌++◌, length, slice_get, IfOk, OnOk, IfErr, OnSome};
ghost use Rattle.std.specs.Option.{option_copied};

use crate::parts::Part;
use std::alloc::Global;
use std::marker::Model;
use suite_base::NoMemory;

/// A union of parts. Contracts see the list of its parts.
#[derive(Drop)]
pub struct Relation {
    parts: Vec<Part>,
}

impl Model for Relation {
    ghost use Rattle.std.specs.Prelude.{List};
    ghost use Rattle.relation_core.specs.Systems.{System};

    ghost Value = { List System };

    ghost view = { λ relation. relation.parts.items };
}

impl Relation {
    /// The relation without parts, in which no point lies.
    pub fn new(alloc: Global) -> Relation
        ensures { result ≡ [] }
    {
        Relation {
            parts: Vec::new(alloc),
        }
    }

    /// The relation without parts, with room for so many.
    pub fn with_capacity(alloc: Global, parts: usize) -> Result<Relation, NoMemory>
        ensures { IfOk result (λ relation. relation ≡ []) }
    {
        Ok(Relation {
            parts: Vec::with_capacity(alloc, parts)?,
        })
    }

    /// Appends a part. On want of memory the part comes back, and the relation is as before.
    pub fn push_part(&mut self, part: Part) -> Result<(), (Part, NoMemory)>
        ensures ok { OnOk result (self.new ≡ self.old ++ part ∷ []) }
        ensures err { IfErr result (λ back. (back.0 ≡ part) × (self.new ≡ self.old)) }
    {
        match self.parts.push(part) {
            Ok(()) => Ok(()),
            Err(failed) => Err((failed.value, NoMemory)),
        }
    }

    /// The part at place `k`, from 0; `None` exactly where `k` is not below the number of parts.
    pub fn part(&self, k: usize) -> Option<&Part>
        ensures value { option_copied result ≡ slice_get self.now k }
        ensures within { OnSome result (k < length self.now) }
    {
        self.parts.get(k)
    }

    /// The parts in order.
    pub fn parts(&self) -> &[Part]
        ensures { result.now ≡ self.now }
    {
        self.parts.as_slice()
    }

    /// The number of parts.
    pub fn len(&self) -> usize
        ensures { result ≡ length self.now }
    {
        self.parts.len()
    }
}
