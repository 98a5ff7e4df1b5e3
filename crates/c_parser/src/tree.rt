//! The tree of a region. Names, numbers and bodies in it are spans of the source.

use c_lexer::Piece;
use sqlite_items::{Boxed, Items};
use suite_base::List;

/// A region: its statements, and the text that their spans lie in.
#[derive(Drop)]
pub struct Region<'a> {
    pub source: &'a [u8],
    pub nodes: List<Node>,
}

/// A statement.
#[cycle(nodes)]
#[derive(Drop)]
pub enum Node {
    For(Boxed<Loop>),
    If(Boxed<Branch>),
    Block(Items<Node>),
    Assign(Assign),
    Empty,
}

/// A loop `for (name = start; name rel bound; step) body`; `step_at` is the place of the step's first
/// byte.
#[cycle(nodes)]
#[derive(Drop)]
pub struct Loop {
    pub name: Piece,
    pub start: Sum,
    pub rel: Rel,
    pub bound: Sum,
    pub step: Step,
    pub step_at: usize,
    pub body: Node,
}

/// `if (condition) then`, and the branch after `else` where there is one.
#[cycle(nodes)]
#[derive(Drop)]
pub struct Branch {
    pub condition: Value,
    pub then: Node,
    pub other: Option<Node>,
}

/// An assignment. `body` goes from the target's first byte up to the `;`.
#[derive(Drop)]
pub struct Assign {
    pub body: Piece,
    pub target: Target,
    pub sign: AssignSign,
    pub value: Value,
}

/// A comparison of order: `<`, `<=`, `>`, `>=`.
#[derive(Clone, Copy, Debug, PartialEq, Eq)]
pub enum Rel {
    Less,
    LessEqual,
    Greater,
    GreaterEqual,
}

/// A loop's step: `i++`, `++i`, `i += n`, `i--`, `--i`, `i -= n`.
#[derive(Clone, Copy, Debug, PartialEq, Eq)]
pub enum Step {
    PostUp,
    PreUp,
    AddUp(Piece),
    PostDown,
    PreDown,
    SubDown(Piece),
}

/// `=`, `+=`, `-=`, `*=`, `/=`, `%=`.
#[derive(Clone, Copy, Debug, PartialEq, Eq)]
pub enum AssignSign {
    Plain,
    Plus,
    Minus,
    Times,
    Divide,
    Remainder,
}

/// A value: a test, and the two arms of `?` and `:` where they follow. `at` is the place of its first
/// byte.
#[cycle(values)]
#[derive(Drop)]
pub struct Value {
    pub at: usize,
    pub test: Or,
    pub arms: Option<Boxed<Arms>>,
}

#[cycle(values)]
#[derive(Drop)]
pub struct Arms {
    pub yes: Value,
    pub no: Value,
}

/// One or more, with `||` between.
#[cycle(values)]
#[derive(Drop)]
pub struct Or {
    pub items: Items<And>,
}

/// One or more, with `&&` between.
#[cycle(values)]
#[derive(Drop)]
pub struct And {
    pub items: Items<Equal>,
}

#[cycle(values)]
#[derive(Drop)]
pub struct Equal {
    pub first: Compare,
    pub rest: Items<(EqualSign, Compare)>,
}

/// `==`, `!=`.
#[derive(Clone, Copy, Debug, PartialEq, Eq)]
pub enum EqualSign {
    Same,
    Differ,
}

#[cycle(values)]
#[derive(Drop)]
pub struct Compare {
    pub first: Sum,
    pub rest: Items<(Rel, Sum)>,
}

/// A sum; `at` is the place of its first byte.
#[cycle(values)]
#[derive(Drop)]
pub struct Sum {
    pub at: usize,
    pub first: Product,
    pub rest: Items<(SumSign, Product)>,
}

/// `+`, `-`.
#[derive(Clone, Copy, Debug, PartialEq, Eq)]
pub enum SumSign {
    Plus,
    Minus,
}

#[cycle(values)]
#[derive(Drop)]
pub struct Product {
    pub first: Unary,
    pub rest: Items<(ProductSign, Unary)>,
}

/// `*`, `/`, `%`.
#[derive(Clone, Copy, Debug, PartialEq, Eq)]
pub enum ProductSign {
    Times,
    Divide,
    Remainder,
}

/// An operand with the signs before it, in their order.
#[cycle(values)]
#[derive(Drop)]
pub struct Unary {
    pub signs: List<UnarySign>,
    pub primary: Primary,
}

/// `+`, `-`, `!`.
#[derive(Clone, Copy, Debug, PartialEq, Eq)]
pub enum UnarySign {
    Plus,
    Minus,
    Not,
}

#[cycle(values)]
#[derive(Drop)]
pub enum Primary {
    Integer(Piece),
    Literal(Piece),
    Target(Target),
    /// A called name and its arguments.
    Call(Piece, Items<Value>),
    Bracket(Boxed<Value>),
}

/// A name with its subscripts: an array element, or a scalar where there are none.
#[cycle(values)]
#[derive(Drop)]
pub struct Target {
    pub name: Piece,
    pub subscripts: Items<Sum>,
}
