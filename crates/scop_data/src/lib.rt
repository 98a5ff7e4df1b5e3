//! SCoPs as data: statements with domains, schedules and accesses, the relations that these are printed as,
//! and what SCoPs mean, with the laws of their runs.
#![tactic(auto)]

mod accesses;
mod affine_sums;
mod affines;
pub mod copies;
pub mod laws;
mod origins;
mod printed_relations;
mod raw_pieces;
pub mod row_builders;
pub mod run_laws;
mod schedules;
pub mod statement_pieces;
mod statements;

pub use accesses::{Access, AccessKind};
pub use affines::Affine;
pub use origins::Pieces;
pub use raw_pieces::{RawStatement, ScopPieces};
pub use schedules::{Floor, Schedule};
pub use statements::{Body, Extension, Statement};
