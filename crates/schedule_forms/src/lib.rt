//! The solved form: scatterings that give the schedule of a statement, access relations that give an access,
//! and the laws by which both mean what their rows mean.
#![tactic(auto)]

pub mod laws;
mod part_solutions;
mod row_roles;
mod row_values;

pub use part_solutions::{solved_access, solved_schedule, solves_access, solves_schedule};
