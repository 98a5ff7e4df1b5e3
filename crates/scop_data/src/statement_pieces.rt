//! Copies of statements, and the pieces that a statement is printed as.

ghost use Rattle.std.specs.Prelude.{◌≡◌, ◌∷◌, ◌++◌, [], map, All, IfOk, OnOk};
ghost use Rattle.scop_data.specs.Pieces.{access_piece, statement_pieces};
ghost use Rattle.scop_data.specs.SolvedRows.{HasAccessRelation};
ghost use Rattle.scop_data.specs.SolvedData.{HasRelations};

use crate::accesses::{Access, AccessKind};
use crate::copies::{copied_body, copied_extensions, copied_relation, copied_statement};
use crate::raw_pieces::RawStatement;
use crate::statements::Statement;
use relation_core::Relation;
use std::alloc::Global;
use suite_base::{List, NoMemory};

impl Statement {
    /// An equal statement.
    pub fn copy(&self, alloc: Global) -> Result<Statement, NoMemory>
        ensures { IfOk result (λ made. made ≡ self.now) }
    {
        copied_statement(alloc, self)
    }

    /// The pieces that the statement is printed as, with so many parameters.
    pub fn pieces(&self, alloc: Global, parameters: usize) -> Result<RawStatement, NoMemory>
        requires { HasRelations parameters self.now }
        ensures { IfOk result (λ pieces. pieces ≡ statement_pieces parameters self.now) }
    {
        let iterators = self.body.iterators.len();
        Ok(RawStatement {
            domain: copied_relation(alloc, &self.domain)?,
            scattering: self.schedule.relation(alloc, iterators, parameters)?,
            accesses: access_pieces(alloc, self.accesses.as_slice(), iterators, parameters)?,
            body: Some(copied_body(alloc, &self.body)?),
            extensions: copied_extensions(alloc, self.extensions.as_slice())?,
        })
    }
}

/// The accesses as relations of one part, over so many iterators and parameters.
pub fn access_pieces(
    alloc: Global,
    accesses: &[Access],
    iterators: usize,
    parameters: usize,
) -> Result<List<(AccessKind, Relation)>, NoMemory>
    requires { All (HasAccessRelation iterators parameters) accesses.now }
    ensures { IfOk result (λ pieces. pieces ≡ map (access_piece iterators parameters) accesses.now) }
{
    let mut made = List::with_capacity(alloc, accesses.len())?;
    for access in accesses {
        let relation = access.relation(alloc, iterators, parameters)?;
        made.push((access.kind, relation))?;
    }
    Ok(made)
}
