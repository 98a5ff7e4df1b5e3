//! The accesses of a statement.

use crate::affines::Affine;
use row_core::Coeff;
use suite_base::List;

/// How an access uses its cell.
#[derive(Clone, Copy, Debug, PartialEq, Eq)]
pub enum AccessKind {
    Read,
    Write,
    MayWrite,
}

/// An access to an array, known by its identifier, at a list of subscripts. A scalar has none.
#[derive(Drop)]
pub struct Access {
    pub kind: AccessKind,
    pub array: Coeff,
    pub subscripts: List<Affine>,
}
