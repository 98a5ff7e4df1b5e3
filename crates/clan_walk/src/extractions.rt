//! The walk over a region: its place, the pieces made so far and the first refusal.

ghost use Rattle.std.specs.Prelude.{◌≡◌, ◌≤◌, ◌+◌, [], ◌∷◌, ◌++◌, length, map, true, false, All, ◌&&◌, None, IfOk, OnOk, IfErr, is_none};
ghost use Rattle.suite_base.specs.Limits.{max_dimensions};
ghost use Rattle.scop_core.specs.Assembly.{HasCause};
ghost use Rattle.scop_core.specs.Assembly as assembly;
ghost use Rattle.clan_walk.specs.Laws.{CanFinish};
ghost use Rattle.scop_data.specs.Pieces.{statement_pieces};
ghost use Rattle.clan_extract.specs.Regions.{Assignment, Assign};
ghost use Rattle.clan_rows.specs.Contents.{made, said};
ghost use Rattle.clan_walk.specs.Places.{IsSizedForm};
ghost use Rattle.clan_walk.specs.Walk.{no_layer, last_or, start, is_open, is_making, are_narrow, around, assignment_refusal, refusal_here, pieces_here, statement_at, accessed, with_pieces, refused, counted, entered_loop, left_loop, entered_branch, left_branch, assigned, walked, refusal_at_end, pieces_at_end};

use crate::array_names::ArrayNames;
use crate::domains::{domain_of, parts_are_narrow};
use crate::finishing::{numbered_arrays, some_names};
use crate::gathering::Accesses;
use crate::scatterings::scattering;
use crate::turns::{Direction, Turn};
use clan_rows::{Count, Form, Layer};
use relation_core::{Part, Shape};
use scop_core::Scop;
use scop_data::copies::{copied_text, copied_texts};
use scop_data::statement_pieces::access_pieces;
use scop_data::{Access, AccessKind, Body, RawStatement, ScopPieces};
use std::alloc::Global;
use std::marker::Model;
use suite_base::{
    Fail, List, MAX_ACCESSES, MAX_ARRAYS, MAX_ITERATORS, MAX_LOCALS, MAX_PARAMETERS, MAX_PARTS,
    MAX_ROWS, MAX_STATEMENTS, NoMemory, Refusal, Text, Where, Which,
};

/// A place of the walk over a region. What has to stand round an assignment is entered before it and left
/// behind it, and its accesses are added before it is assigned. On want of memory nothing is promised of
/// the place.
#[derive(Drop)]
pub struct Extraction {
    parameters: List<Text>,
    arrays: ArrayNames,
    loops: List<Text>,
    turns: List<Turn>,
    next: usize,
    // the layer of nothing, and for each loop and branch round the place what it asks with those outside
    base: Layer,
    layers: List<Layer>,
    number: usize,
    accesses: Accesses,
    statements: List<RawStatement>,
    refusal: Option<Refusal>,
}

impl Model for Extraction {
    ghost use Rattle.std.specs.Prelude.{◌≡◌, map};
    ghost use Rattle.clan_rows.specs.Contents.{said};
    ghost use Rattle.clan_walk.specs.Places.{IsPlace};
    ghost use Rattle.clan_walk.specs.Walk.{State, no_layer};

    ghost Value = { State };

    ghost view = { λ e. record { parameters = e.parameters; arrays = e.arrays; loops = e.loops; turns = e.turns; next = e.next; layers = map said e.layers; number = e.number; accesses = e.accesses; statements = e.statements; refusal = e.refusal } };

    ghost invariant = { λ e. IsPlace e.parameters e.loops e.turns e.next e.number e.accesses × (said e.base ≡ no_layer) };
}

// The layer of nothing: one part that asks nothing.
fn layer_of_nothing(alloc: Global) -> Result<Layer, NoMemory>
    ensures { IfOk result (λ layer. said layer ≡ no_layer) }
{
    let mut parts = List::new(alloc);
    parts.push(List::new(alloc))?;
    Ok(Layer {
        count: Count {
            parts: 1,
            rows: 0,
            locals: 0,
        },
        fits: true,
        parts,
    })
}

// The last of some layers, or else `base`.
fn last_layer<'a>(base: &'a Layer, layers: &'a [Layer]) -> &'a Layer
    ensures { said result.now ≡ last_or (said base.now) (map said layers.now) }
{
    match layers {
        [] => base,
        [.., last] => last,
    }
}

// The first refusal of statement number `k`, with these accesses, where all round it asks this.
fn refusal_of(k: u32, layer: &Layer, accesses: &Accesses) -> Option<Refusal>
    ensures { result ≡ assignment_refusal k (said layer.now) accesses.now }
{
    if MAX_ACCESSES < accesses.count {
        Some(Refusal::Limit(Which::Accesses, k))
    } else if !accesses.short {
        Some(Refusal::Limit(Which::Subscripts, k))
    } else if MAX_PARTS < layer.count.parts {
        Some(Refusal::TooManyParts(k))
    } else if MAX_ROWS < layer.count.rows {
        Some(Refusal::Limit(Which::Rows, k))
    } else if MAX_LOCALS < layer.count.locals {
        Some(Refusal::Limit(Which::Locals, k))
    } else if !(layer.fits && accesses.fit) {
        Some(Refusal::Overflow(Where::Statement, k))
    } else {
        None
    }
}

impl Extraction {
    /// The place before a region with these parameters and arrays.
    pub fn new(
        alloc: Global,
        parameters: List<Text>,
        arrays: List<Text>,
    ) -> Result<Extraction, NoMemory>
        ensures { IfOk result (λ place. place ≡ start parameters arrays) }
    {
        let arrays = ArrayNames::new(alloc, arrays)?;
        let base = layer_of_nothing(alloc)?;
        Ok(Extraction {
            parameters,
            arrays,
            loops: List::new(alloc),
            turns: List::new(alloc),
            next: 0,
            base,
            layers: List::new(alloc),
            number: 0,
            accesses: Accesses::new(alloc),
            statements: List::new(alloc),
            refusal: None,
        })
    }

    /// The names of the parameters.
    pub fn parameters(&self) -> &[Text]
        ensures { result.now ≡ self.now.parameters }
    {
        self.parameters.as_slice()
    }

    /// The names of the loops round the place, from the outermost.
    pub fn loops(&self) -> &[Text]
        ensures { result.now ≡ self.now.loops }
    {
        self.loops.as_slice()
    }

    /// Whether the next statement can be one that is made: no limit of the whole is passed, and nothing
    /// was refused.
    pub fn is_open(&self) -> bool
        ensures { result ≡ is_open self.now }
    {
        let few_names = self.parameters.len() <= MAX_PARAMETERS && self.arrays.len() <= MAX_ARRAYS;
        few_names && (self.number < MAX_STATEMENTS && self.refusal.is_none())
    }

    // Whether its pieces can be made too.
    fn is_making(&self) -> bool
        ensures { result ≡ is_making self.now }
    {
        self.is_open() && self.loops.len() <= MAX_ITERATORS
    }

    // What all round the place asks.
    fn around(&self) -> &Layer
        ensures { said result.now ≡ around self.now }
    {
        last_layer(&self.base, self.layers.as_slice())
    }

    // The refusal of the assignment at hand.
    fn refusal_here(&self) -> Option<Refusal>
        ensures { result ≡ refusal_here self.now }
    {
        if self.is_open() {
            refusal_of((self.number + 1) as u32, self.around(), &self.accesses)
        } else {
            None
        }
    }

    /// Enters a loop with this layer.
    pub fn enter_loop(
        &mut self,
        alloc: Global,
        name: &Text,
        direction: Direction,
        layer: &Layer,
    ) -> Result<(), NoMemory>
        ensures { OnOk result (self.new ≡ entered_loop name.now direction (said layer.now) self.old) }
    {
        let joined = self.around().crossed(alloc, layer)?;
        let name = copied_text(alloc, name)?;
        self.layers.push(joined)?;
        self.accesses = Accesses::new(alloc);
        self.turns.push(Turn {
            direction,
            beta: self.next,
        })?;
        match self.loops.push(name) {
            Err(failed) => {
                let _ = self.turns.pop();
                Err(failed)
            }
            Ok(()) => {
                self.next = 0;
                Ok(())
            }
        }
    }

    /// Leaves the innermost loop.
    pub fn leave_loop(&mut self, alloc: Global)
        ensures { self.new ≡ left_loop self.old }
    {
        let _ = self.loops.pop();
        let _ = self.layers.pop();
        self.accesses = Accesses::new(alloc);
        match self.turns.pop() {
            None => {}
            Some(turn) => self.next = turn.beta + self.next.min(1),
        }
    }

    /// Enters a branch of a condition with this layer.
    pub fn enter_branch(&mut self, alloc: Global, layer: &Layer) -> Result<(), NoMemory>
        ensures { OnOk result (self.new ≡ entered_branch (said layer.now) self.old) }
    {
        let joined = self.around().crossed(alloc, layer)?;
        self.layers.push(joined)
    }

    /// Leaves the innermost branch.
    pub fn leave_branch(&mut self)
        ensures { self.new ≡ left_branch self.old }
    {
        let _ = self.layers.pop();
    }

    /// Adds an access of this kind to the array of this name at these subscripts, forms over the loops
    /// round the place and the parameters, each of which is `None` where it is out of range.
    pub fn add_access(
        &mut self,
        alloc: Global,
        kind: AccessKind,
        name: &[u8],
        subscripts: &[Option<Form>],
    ) -> Result<(), NoMemory>
        requires sizes { All (IsSizedForm (length self.old.loops) (length self.old.parameters)) subscripts.now }
        ensures { OnOk result (self.new ≡ accessed kind name.now (map made subscripts.now) self.old) }
    {
        let making = self.is_making();
        self.accesses
            .add(alloc, making, &self.arrays, kind, name, subscripts)
    }

    // The pieces of the assignment at hand.
    fn pieces(&self, alloc: Global, text: &[u8]) -> Result<RawStatement, NoMemory>
        requires making { is_making self.now ≡ true }
        requires narrow { are_narrow (around self.now).parts ≡ true }
        ensures { IfOk result (λ pieces. pieces ≡ statement_pieces (length self.now.parameters) (statement_at text.now self.now)) }
    {
        let iterators = self.loops.len();
        let parameters = self.parameters.len();
        let layer = last_layer(&self.base, self.layers.as_slice());
        let domain = domain_of(alloc, iterators, parameters, layer.parts.as_slice())?;
        let scattering = scattering(alloc, self.turns.as_slice(), self.next, parameters)?;
        let accesses = access_pieces(alloc, self.accesses.made.as_slice(), iterators, parameters)?;
        let body = Body {
            text: Text::from_bytes(alloc, text)?,
            iterators: copied_texts(alloc, self.loops.as_slice())?,
        };
        Ok(RawStatement {
            domain,
            scattering,
            accesses,
            body: Some(body),
            extensions: List::new(alloc),
        })
    }

    // Whether the pieces of the assignment at hand are made, where it has this refusal.
    fn is_printed(&self, refusal: Option<Refusal>) -> bool
        ensures answer { result ≡ ((is_making self.now && are_narrow (around self.now).parts) && is_none refusal) }
    {
        self.is_making() && parts_are_narrow(self.around().parts.as_slice()) && refusal.is_none()
    }

    // Appends the pieces of the assignment at hand, where they are made.
    fn push_pieces(
        &mut self,
        alloc: Global,
        text: &[u8],
        refusal: Option<Refusal>,
    ) -> Result<(), NoMemory>
        requires { refusal ≡ refusal_here self.old }
        ensures { OnOk result (self.new ≡ with_pieces (pieces_here text.now self.old) self.old) }
    {
        if self.is_printed(refusal) {
            let pieces = self.pieces(alloc, text)?;
            self.statements.push(pieces)?;
        }
        Ok(())
    }

    // Counts one statement more, as long as there aren't too many, with the first refusal so far.
    fn count(&mut self, alloc: Global, refusal: Option<Refusal>)
        ensures { self.new ≡ counted (refused refusal self.old) }
    {
        self.accesses = Accesses::new(alloc);
        if self.refusal.is_none() {
            self.refusal = refusal;
        }
        if self.number <= MAX_STATEMENTS {
            self.number += 1;
            self.next += 1;
        }
    }

    /// Takes the assignment at hand, with this text, as the next statement.
    pub fn assign(&mut self, alloc: Global, text: &[u8]) -> Result<(), NoMemory>
        ensures { OnOk result (self.new ≡ assigned text.now self.old) }
    {
        let refusal = self.refusal_here();
        self.push_pieces(alloc, text, refusal)?;
        self.count(alloc, refusal);
        Ok(())
    }

    /// Counts an assignment where none is made any more, whatever it is.
    pub fn skip_assignment(&mut self, alloc: Global)
        requires { is_open self.old ≡ false }
        ensures { (a : Assignment) → self.new ≡ walked (Assign a) self.old }
    {
        self.count(alloc, None);
    }

    // The first refusal of the region behind it.
    fn refusal_at_end(&self) -> Option<Refusal>
        ensures { result ≡ refusal_at_end self.now }
    {
        if MAX_PARAMETERS < self.parameters.len() {
            Some(Refusal::Limit(Which::Parameters, 0))
        } else if MAX_ARRAYS < self.arrays.len() {
            Some(Refusal::Limit(Which::Arrays, 0))
        } else if MAX_STATEMENTS < self.number {
            Some(Refusal::Limit(Which::Statements, 0))
        } else {
            self.refusal
        }
    }

    // The pieces of the region's SCoP behind it.
    fn into_pieces(self, alloc: Global) -> Result<ScopPieces, NoMemory>
        requires { length self.parameters ≤ max_dimensions }
        ensures { IfOk result (λ pieces. pieces ≡ pieces_at_end self) }
    {
        let shape = Shape {
            outputs: 0,
            inputs: 0,
            locals: 0,
            parameters: self.parameters.len(),
        };
        let arrays = numbered_arrays(alloc, self.arrays.names())?;
        let language = Text::from_bytes(alloc, b"C")?;
        Ok(ScopPieces {
            language,
            context: Part::new(alloc, shape),
            parameters: some_names(self.parameters),
            statements: self.statements,
            arrays: Some(arrays),
            extensions: List::new(alloc),
        })
    }

    /// The SCoP of the region behind it, or its first refusal: a limit of the whole, and then the first of
    /// the first statement that has one. Where nothing was refused, the pieces are such as can be assembled.
    pub fn finish(self, alloc: Global) -> Result<Scop, Fail>
        requires { CanFinish self }
        ensures none { OnOk result (refusal_at_end self ≡ None) }
        ensures scop { IfOk result (λ scop. scop ≡ assembly.scop_of (pieces_at_end self)) }
        ensures cause { IfErr result (HasCause (refusal_at_end self)) }
    {
        if let Some(refusal) = self.refusal_at_end() {
            return Err(Fail::Refused(refusal));
        }
        match self.into_pieces(alloc) {
            Err(NoMemory) => Err(Fail::Memory),
            Ok(pieces) => Scop::assemble(alloc, pieces),
        }
    }
}
