//! How many columns of each sort a part has.

/// The numbers of output, input, local and parameter columns, in the order in which a row has them.
/// The constant's column comes after them.
#[derive(Clone, Copy, Debug, PartialEq, Eq)]
pub struct Shape {
    pub outputs: usize,
    pub inputs: usize,
    pub locals: usize,
    pub parameters: usize,
}
