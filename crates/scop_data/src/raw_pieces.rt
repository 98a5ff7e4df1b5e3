//! The pieces of a SCoP as a text gives them, before schedules and accesses are solved.

use crate::accesses::AccessKind;
use crate::statements::{Body, Extension};
use relation_core::{Part, Relation};
use row_core::Coeff;
use suite_base::{List, Text};

/// A statement whose scattering and accesses are relations. One without a body gets a default one.
#[derive(Drop)]
pub struct RawStatement {
    pub domain: Relation,
    pub scattering: Relation,
    pub accesses: List<(AccessKind, Relation)>,
    pub body: Option<Body>,
    pub extensions: List<Extension>,
}

/// What a SCoP is assembled from. The arrays are identifiers with names.
#[derive(Drop)]
pub struct ScopPieces {
    pub language: Text,
    pub context: Part,
    pub parameters: Option<List<Text>>,
    pub statements: List<RawStatement>,
    pub arrays: Option<List<(Coeff, Text)>>,
    pub extensions: List<Extension>,
}
