//! A statement: domain, schedule, accesses and body.

use crate::accesses::Access;
use crate::schedules::Schedule;
use relation_core::Relation;
use suite_base::{List, Text};

/// The text of a statement and the names of its iterators.
#[derive(Drop)]
pub struct Body {
    pub text: Text,
    pub iterators: List<Text>,
}

/// An extension that is kept as it was read: its name and its lines, each without its newline.
#[derive(Drop)]
pub struct Extension {
    pub name: Text,
    pub lines: List<Text>,
}

/// A statement of a SCoP. The outputs of the domain are its iterators.
#[derive(Drop)]
pub struct Statement {
    pub domain: Relation,
    pub schedule: Schedule,
    pub accesses: List<Access>,
    pub body: Body,
    pub extensions: List<Extension>,
}
