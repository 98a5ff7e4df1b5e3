//! One entry of a row beside its place.

use crate::coeffs::Coeff;

/// An entry that is not 0, and its place in the row, from 0.
#[derive(Clone, Copy, Debug, PartialEq, Eq)]
pub struct Entry {
    pub place: usize,
    pub value: Coeff,
}
