//! Dependence systems: the list of them for a SCoP, the rows of each, and the law that a pair of
//! instances lies in one exactly where it conflicts.
#![tactic(auto)]

pub mod building;
mod comparing;
mod dependences;
mod entries;
pub mod laws;
pub mod level_rows;
pub mod level_tests;
mod listing;
pub mod lookups;
mod own;
mod pairings;
pub mod pieces;
mod placing;
pub mod spans;
mod systems;
pub mod widths;

pub use dependences::{Dep, DepKind};
pub use listing::deps;
pub use own::{own_deps, own_pairing, own_pieces, own_system};
pub use pairings::Pairing;
pub use systems::{pairing_for, system};
