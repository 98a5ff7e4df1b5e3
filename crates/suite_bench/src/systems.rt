//! A wide system and its certificate.

use crate::dice::Dice;
use crate::rows::{at, push};
use farkas_cert::Certificate;
use relation_core::{Part, RowKind, Shape};
use row_core::Coeff;
use std::alloc::Global;
use suite_base::NoMemory;

/// A system of 256 rows and 62 columns, with eight entries a row that may be other than 0.
pub fn wide_system(alloc: Global) -> Result<Part, NoMemory> {
    let shape = Shape {
        outputs: 31,
        inputs: 31,
        locals: 0,
        parameters: 0,
    };
    let mut system = Part::new(alloc, shape);
    let mut dice = Dice::new(1);
    for _ in 0..256 {
        let mut terms = [at(0, 0); 8];
        for k in 0..8 {
            terms[k] = at(dice.below(62), dice.small(5) - 2);
        }
        push(&mut system, RowKind::AtLeast, &terms)?;
    }
    Ok(system)
}

/// The certificate of `count` ones.
pub fn ones(alloc: Global, count: usize) -> Result<Certificate, NoMemory> {
    let mut certificate = Certificate::new(alloc);
    for _ in 0..count {
        certificate.push(Coeff::ONE)?;
    }
    Ok(certificate)
}
