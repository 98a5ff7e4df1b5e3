//! Coefficients that fit 127 bits and a sign, rows of them with checked arithmetic, and the dense
//! numbering of vectors of them.
#![tactic(auto)]

mod arithmetic;
mod coeffs;
mod dense_rows;
mod entries;
mod numbering;
mod representations;
mod sparse_arithmetic;
mod sparse_entries;
mod sparse_rows;
mod sums;

pub use arithmetic::{RowFail, add_scaled, combine, negated, swap_columns, value_sign};
pub use coeffs::Coeff;
pub use dense_rows::DenseRow;
pub use entries::Entry;
pub use numbering::dense_vectors;
pub use representations::Row;
pub use sparse_rows::SparseRow;
pub use sums::Sum;
