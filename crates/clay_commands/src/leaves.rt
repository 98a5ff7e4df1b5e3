//! A statement between two commands.

use scop_core::Statement;
use suite_base::List;

/// A statement, its dense beta vector, which stands in place of its own betas, and the number of the
/// statement that it comes from.
#[derive(Drop)]
pub struct Leaf {
    pub beta: List<u32>,
    pub statement: Statement,
    pub original: u32,
}
