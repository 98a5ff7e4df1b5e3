//! The pieces of SCoPs whose statements are edited.

ghost use Rattle.std.specs.Prelude.{◌≡◌, ◌<◌, ◌+◌, ◌∷◌, ◌++◌, [], length, take, IfOk, OnOk};
ghost use Rattle.scop_data.specs.ScopData.{arrays_of};

use crate::scops::Scop;
use row_core::Coeff;
use scop_data::copies::{copied_text, copied_texts};
use scop_data::{RawStatement, ScopPieces};
use std::alloc::Global;
use suite_base::{List, NoMemory, Text};

// The arrays of a SCoP, of which there are `n`.
fn array_list(alloc: Global, scop: &Scop, n: usize) -> Result<List<(Coeff, Text)>, NoMemory>
    requires { n ≡ length (arrays_of scop.now) }
    ensures { IfOk result (λ made. made ≡ arrays_of scop.now) }
{
    let mut made = List::new(alloc);
    for k in 0..n {
        push_array(alloc, scop, k, &mut made)?;
    }
    Ok(made)
}

// Appends an array.
fn push_named(
    alloc: Global,
    identifier: Coeff,
    name: &Text,
    made: &mut List<(Coeff, Text)>,
) -> Result<(), NoMemory>
    ensures { OnOk result (made.new ≡ made.old ++ (identifier, name.now) ∷ []) }
{
    let name = copied_text(alloc, name)?;
    made.push((identifier, name))?;
    Ok(())
}

// Appends the array at place `k`.
fn push_array(
    alloc: Global,
    scop: &Scop,
    k: usize,
    made: &mut List<(Coeff, Text)>,
) -> Result<(), NoMemory>
    requires place { k < length (arrays_of scop.now) }
    requires behind { made.old ≡ take k (arrays_of scop.now) }
    ensures { OnOk result (made.new ≡ take (k + 1) (arrays_of scop.now)) }
{
    match scop.array(k) {
        None => unreachable!(),
        Some(array) => {
            push_named(alloc, array.0, array.1, made)?;
            Ok(())
        }
    }
}

// The arrays, where they are present.
fn copied_arrays(alloc: Global, scop: &Scop) -> Result<Option<List<(Coeff, Text)>>, NoMemory>
    ensures { IfOk result (λ made. made ≡ scop.now.arrays) }
{
    match scop.array_count() {
        None => Ok(None),
        Some(n) => Ok(Some(array_list(alloc, scop, n)?)),
    }
}

impl Scop {
    /// The pieces of a SCoP that has all as this one, but for these statements and no extensions.
    pub fn pieces_with(
        &self,
        alloc: Global,
        statements: List<RawStatement>,
    ) -> Result<ScopPieces, NoMemory>
        ensures { IfOk result (λ pieces. pieces ≡ record { language = self.now.language; context = self.now.context; parameters = self.now.parameters; statements = statements; arrays = self.now.arrays; extensions = [] }) }
    {
        Ok(ScopPieces {
            language: copied_text(alloc, self.language())?,
            context: self.context().copy(alloc)?,
            parameters: copied_names_of(alloc, self)?,
            statements,
            arrays: copied_arrays(alloc, self)?,
            extensions: List::new(alloc),
        })
    }
}

// The names of the parameters, where they are present.
fn copied_names_of(alloc: Global, scop: &Scop) -> Result<Option<List<Text>>, NoMemory>
    ensures { IfOk result (λ made. made ≡ scop.now.parameters) }
{
    match scop.parameters() {
        None => Ok(None),
        Some(names) => Ok(Some(copied_texts(alloc, names.as_slice())?)),
    }
}
