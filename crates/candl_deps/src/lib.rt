//! The dependences of a SCoP: each system decided, kept or dropped with a certificate, and their block.
#![tactic(auto)]

mod bases;
mod decisions;
mod found;
mod held;
pub mod laws;

pub use decisions::{dependence_block, with_dependences};
pub use dependence_systems::{Dep, DepKind, deps, system};
pub use found::{dependences, print_dependences};
pub use held::{Decided, Dependences};
