//! A whole SCoP. Its fields are private: each is made by `assemble`, which checks it.

ghost use Rattle.std.specs.Prelude.{◌≡◌, ◌<◌, length, ◌≤◌, slice_get, None, true, All, MatchOption, IsSomeAnd, OnSome, OnOk, IfOk, IfErr};
ghost use Rattle.std.specs.Option.{option_copied};
ghost use Rattle.suite_base.specs.Limits.{max_statements};
ghost use Rattle.row_core.specs.Dense.{dense_of};
ghost use Rattle.scop_core.specs.Assembly.{first_unsolved, solved_statements, early_refusal_of, refusal_of, scop_of, HasCause, HasShapes};
ghost use Rattle.scop_core.specs.Printable.{IsPrintable, arrays_name, is_kept};
ghost use Rattle.scop_data.specs.ScopData.{arrays_of, betas_in, extended};
ghost use Rattle.scop_data.specs.SolvedData.{HasRelations};
ghost use Rattle.scop_core.specs.Validity.{IsValid};

use crate::array_tables::{ArrayTable, copied_table, table_of};
use crate::assembling::{statements_from, unsolved_statement};
use crate::clashes::statements_clash;
use crate::held::pieces_are_held;
use crate::limits::{pieces_limit, statements_limit};
use relation_core::Part;
use row_core::{Coeff, dense_vectors};
use scop_data::copies::{
    beta_vectors, copied_extensions, copied_names, copied_statements, copied_text, extensions_with,
};
use scop_data::{Extension, RawStatement, ScopPieces, Statement};
use std::alloc::Global;
use std::marker::Model;
use suite_base::{Fail, List, NoMemory, Refusal, Text};

/// A valid SCoP.
#[derive(Drop)]
pub struct Scop {
    language: Text,
    context: Part,
    parameters: Option<List<Text>>,
    statements: List<Statement>,
    arrays: Option<ArrayTable>,
    extensions: List<Extension>,
}

impl Model for Scop {
    ghost use Rattle.scop_data.specs.ScopData.{ScopData};

    ghost Value = { ScopData };

    ghost view = { λ s. record { language = s.language; context = s.context; parameters = s.parameters; statements = s.statements; arrays = s.arrays; extensions = s.extensions } };

    ghost use Rattle.scop_core.specs.Validity.{IsValid};

    ghost invariant = { λ s. IsValid (record { language = s.language; context = s.context; parameters = s.parameters; statements = s.statements; arrays = s.arrays; extensions = s.extensions }) };
}

// The first limit that the pieces pass, or else the first statement that is not solved.
fn early_refusal(pieces: &ScopPieces) -> Option<Refusal>
    ensures answer { result ≡ early_refusal_of pieces.now }
    ensures few { result ≡ None → length pieces.now.statements ≤ max_statements }
{
    let raws = pieces.statements.as_slice();
    let limit = pieces_limit(pieces);
    if limit.is_some() {
        return limit;
    }
    let limit = statements_limit(raws);
    if limit.is_some() {
        return limit;
    }
    unsolved_statement(raws)
}

// These statements in solved form, over the parameters of the context.
fn solved(
    alloc: Global,
    context: &Part,
    raws: List<RawStatement>,
) -> Result<List<Statement>, NoMemory>
    requires shapes { All (HasShapes context.now.shape.parameters) raws }
    requires solved { first_unsolved 1 raws ≡ None }
    ensures statements { IfOk result (λ made. made ≡ solved_statements 1 raws) }
    ensures count { IfOk result (λ made. length made ≡ length raws) }
    ensures printable { IfOk result (All (HasRelations context.now.shape.parameters)) }
{
    let made = statements_from(alloc, raws)?;
    Ok(made)
}

impl Scop {
    /// The SCoP of these pieces, which need to be such that they can be printed and read back. It
    /// refuses by the first limit that is passed, of the whole and
    /// then of the first statement; then by the first statement that is not in solved form; then by
    /// the first statement whose beta vector clashes with that of one before it.
    pub fn assemble(alloc: Global, pieces: ScopPieces) -> Result<Scop, Fail>
        requires printable { IsPrintable pieces }
        ensures none { OnOk result (refusal_of pieces ≡ None) }
        ensures scop { IfOk result (λ scop. scop ≡ scop_of pieces) }
        ensures cause { IfErr result (HasCause (refusal_of pieces)) }
    {
        pieces_are_held(&pieces);
        if let Some(refusal) = early_refusal(&pieces) {
            return Err(Fail::Refused(refusal));
        }
        let ScopPieces {
            language,
            context,
            parameters,
            statements,
            arrays,
            extensions,
        } = pieces;
        match solved(alloc, &context, statements) {
            Err(NoMemory) => Err(Fail::Memory),
            Ok(statements) => match statements_clash(statements.as_slice()) {
                Some(refusal) => Err(Fail::Refused(refusal)),
                None => match table_of(alloc, &arrays) {
                    Err(NoMemory) => Err(Fail::Memory),
                    Ok(arrays) => Ok(Scop {
                        language,
                        context,
                        parameters,
                        statements,
                        arrays,
                        extensions,
                    }),
                },
            },
        }
    }

    /// The beta vectors of the statements, numbered densely: each beta becomes the number of distinct
    /// lesser ones at its place, among the statements whose vectors agree with its own before that place.
    pub fn dense_betas(&self, alloc: Global) -> Result<List<List<u32>>, NoMemory>
        ensures { IfOk result (λ vectors. vectors ≡ dense_of (betas_in self.now.statements)) }
    {
        let vectors = beta_vectors(alloc, self.statements.as_slice())?;
        dense_vectors(alloc, &vectors)
    }

    /// An equal SCoP.
    pub fn copy(&self, alloc: Global) -> Result<Scop, NoMemory>
        ensures { IfOk result (λ scop. scop ≡ self.now) }
    {
        Ok(Scop {
            language: copied_text(alloc, &self.language)?,
            context: self.context.copy(alloc)?,
            parameters: copied_names(alloc, &self.parameters)?,
            statements: copied_statements(alloc, self.statements.as_slice())?,
            arrays: copied_table(alloc, &self.arrays)?,
            extensions: copied_extensions(alloc, self.extensions.as_slice())?,
        })
    }

    /// The SCoP without its extensions of the same name, and with this one behind the others. The
    /// extension needs a name other than `arrays` and lines none of which ends it. On want of memory the SCoP comes back unchanged.
    pub fn with_extension(self, extension: Extension) -> Result<Scop, (Scop, NoMemory)>
        requires printable { is_kept arrays_name extension ≡ true }
        ensures ok { IfOk result (λ scop. scop ≡ extended self extension) }
        ensures err { IfErr result (λ back. back.0 ≡ self) }
    {
        match extensions_with(
            self.extensions.allocator(),
            self.extensions.as_slice(),
            extension,
        ) {
            Err(failed) => Err((self, failed)),
            Ok(extensions) => {
                let Scop {
                    language,
                    context,
                    parameters,
                    statements,
                    arrays,
                    extensions: _,
                } = self;
                Ok(Scop {
                    language,
                    context,
                    parameters,
                    statements,
                    arrays,
                    extensions,
                })
            }
        }
    }

    /// Statement `k`, from 0; `None` exactly where there is no such statement.
    pub fn statement(&self, k: usize) -> Option<&Statement>
        ensures value { option_copied result ≡ slice_get self.now.statements k }
        ensures within { OnSome result (k < length self.now.statements) }
    {
        self.statements.get(k)
    }

    /// The statements in order.
    pub fn statements(&self) -> &[Statement]
        ensures answer { result.now ≡ self.now.statements }
        ensures valid { IsValid self.now }
    {
        self.statements.as_slice()
    }

    /// The number of statements.
    pub fn statement_count(&self) -> usize
        ensures count { result ≡ length self.now.statements }
        ensures valid { IsValid self.now }
    {
        self.statements.len()
    }

    /// The word for the language.
    pub fn language(&self) -> &Text
        ensures { result.now ≡ self.now.language }
    {
        &self.language
    }

    /// The context.
    pub fn context(&self) -> &Part
        ensures { result.now ≡ self.now.context }
    {
        &self.context
    }

    /// The names of the parameters, where they are present.
    pub fn parameters(&self) -> Option<&List<Text>>
        ensures { option_copied result ≡ self.now.parameters }
    {
        self.parameters.as_ref()
    }

    /// The number of arrays; `None` exactly where arrays are not present.
    pub fn array_count(&self) -> Option<usize>
        ensures { MatchOption result (self.now.arrays ≡ None) (λ count. IsSomeAnd self.now.arrays (λ arrays. count ≡ length arrays)) }
    {
        match &self.arrays {
            None => None,
            Some(arrays) => Some(arrays.len()),
        }
    }

    /// The identifier and the name of array `k`, from 0; `None` exactly where there is no such array.
    pub fn array(&self, k: usize) -> Option<(Coeff, &Text)>
        ensures { MatchOption result (slice_get (arrays_of self.now) k ≡ None) (λ array. slice_get (arrays_of self.now) k ≡ Some (array.0, array.1.now)) }
    {
        match &self.arrays {
            None => None,
            Some(arrays) => arrays.get(k),
        }
    }

    /// The global extensions, but for the arrays.
    pub fn extensions(&self) -> &List<Extension>
        ensures { result.now ≡ self.now.extensions }
    {
        &self.extensions
    }
}
