//! What a relation is for, which says what shapes its parts can have.

/// The role of a relation in a text. Parameters and iterators are the numbers that its parts have to
/// have; the iterators of a domain are known from its first part on.
#[derive(Clone, Copy, Debug, PartialEq, Eq)]
pub enum Role {
    Context,
    Domain {
        parameters: usize,
        iterators: Option<usize>,
    },
    Scattering {
        parameters: usize,
        iterators: usize,
    },
    Access {
        parameters: usize,
        iterators: usize,
    },
}
