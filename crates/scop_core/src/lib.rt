//! SCoPs: assembled from their pieces with all limits, and the laws of what is assembled. The data and its
//! meaning come from `scop_data`, whose names are handed on.
#![tactic(auto)]

mod array_tables;
mod assembling;
mod clashes;
mod held;
pub mod laws;
mod limits;
mod scop_pieces;
mod scops;
pub mod shape_laws;

pub use scop_data::{
    Access, AccessKind, Affine, Body, Extension, Floor, Pieces, RawStatement, Schedule, ScopPieces,
    Statement, run_laws,
};
pub use scops::Scop;
