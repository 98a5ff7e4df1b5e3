//! The parameters and the arrays of a region, or the first place where the roles of its names clash.
#![tactic(auto)]

mod node_names;
mod occurrences;
mod region;
mod registers;
mod role_tables;
mod roles;
mod scopes;
mod value_names;

pub use region::{Names, names_of};
