//! The ten commands that edit the schedule of a SCoP.
#![tactic(auto)]

mod applying;
mod arguments;
mod changes;
mod command_steps;
mod conditions;
mod drafting;
mod edit_fails;
mod edited;
mod form_edits;
mod leaf_splits;
mod leaves;
mod runs;
mod split_steps;
mod splits;
mod steps;
mod vector_steps;

pub use applying::apply;
pub use edited::Edited;
