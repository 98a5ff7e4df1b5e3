//! Affine forms in range, and what loops and conditions ask of the iterators inside them.
#![tactic(auto)]

mod bounds;
mod coefficients;
mod comparisons;
mod conditions;
mod constraints;
mod counts;
mod crossings;
mod forms;
mod layers;
mod loops;
mod named_forms;
mod rows;
mod values;

pub use bounds::{Bounds, Side};
pub use comparisons::Comparison;
pub use constraints::{Constraint, FormRow};
pub use counts::Count;
pub use forms::Form;
pub use layers::Layer;
pub use loops::Stride;
pub use values::{difference, negative, product, sum};
