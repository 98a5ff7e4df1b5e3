//! The first place of a region that breaks the rules of affine values, bounds, conditions and steps.
#![tactic(auto)]

mod facts;
mod numbers;
mod references;
mod statements;
mod values;

pub use statements::first_fault;
