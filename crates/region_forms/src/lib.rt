//! The forms of expressions and the layers of loops and conditions of a parsed region.
#![tactic(auto)]

mod bounds;
mod conditions;
mod evaluations;
mod loops;
mod multiples;
mod numbers;
mod scopes;
mod sums;

pub use conditions::condition_layer;
pub use evaluations::Evaluation;
pub use loops::loop_layer;
pub use scopes::Scope;
pub use sums::sum_value;
