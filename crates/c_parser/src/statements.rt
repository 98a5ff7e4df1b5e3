//! Statements: one function for each production of the grammar.

ghost use Rattle.std.specs.Prelude.{◌≡◌, ◌<◌, ◌≤◌, ◌^◌};
ghost use Rattle.c_lexer.specs.Input.{Reads};
ghost use Rattle.c_parser.specs.Statements as spec;

use crate::heads::{assigned, loop_head, open_round};
use crate::tree::{Assign, Branch, Loop, Node};
use crate::values::{inner_value, target, value};
use c_lexer::{Piece, Stop, Symbol, Tokens, same_symbol};
use sqlite_items::{Boxed, Items};
use std::alloc::Global;
use suite_base::{List, MAX_LOOPS, MAX_NESTS};

// An assignment with its `;`.
#[tactic(auto, unfolding(crate::specs::Statements::assign))]
fn assign(alloc: Global, tokens: &mut Tokens<'_>, nests: usize) -> Result<Assign, Stop>
    requires { nests < 2 ^ 32 }
    ensures { Reads (spec.assign nests tokens.old) result tokens.new }
{
    let from = tokens.position();
    let target = target(alloc, tokens, nests)?;
    let sign = assigned(tokens)?;
    let value = value(alloc, tokens, nests)?;
    let to = tokens.position();
    tokens.expect(Symbol::Semicolon)?;
    let body = Piece { from, to };
    Ok(Assign {
        body,
        target,
        sign,
        value,
    })
}

// Whether a statement may begin with the symbol.
fn begins_statement(symbol: Symbol) -> bool
    ensures { result ≡ spec.begins_statement symbol }
{
    match symbol {
        Symbol::For | Symbol::If | Symbol::OpenCurly | Symbol::Semicolon | Symbol::Name => true,
        _ => false,
    }
}

// A loop with its body.
#[tactic(auto, unfolding(crate::specs::Statements::for_loop))]
#[cycle(statements)]
fn for_loop(
    alloc: Global,
    tokens: &mut Tokens<'_>,
    nests: usize,
    loops: usize,
) -> Result<Node, Stop>
    requires { nests < 2 ^ 32 }
    ensures { Reads (spec.for_loop nests loops (spec.body nests loops) tokens.old) result tokens.new }
{
    tokens.open_loop(loops)?;
    tokens.take();
    let head = loop_head(alloc, tokens, nests)?;
    let body = body(alloc, tokens, nests, loops)?;
    let made = Loop {
        name: head.name,
        start: head.start,
        rel: head.rel,
        bound: head.bound,
        step: head.step,
        step_at: head.step_at,
        body,
    };
    Ok(Node::For(Boxed::new(alloc, made)?))
}

// A branch opens a nest with its first token.
#[tactic(auto, unfolding(crate::specs::Statements::branch))]
#[cycle(statements)]
fn branch(alloc: Global, tokens: &mut Tokens<'_>, nests: usize, loops: usize) -> Result<Node, Stop>
    requires { nests < 2 ^ 32 }
    ensures { Reads (spec.branch nests (spec.inner nests loops) tokens.old) result tokens.new }
{
    if !begins_statement(tokens.peek()) {
        return Err(tokens.refuse());
    }
    tokens.open_nest(nests)?;
    inner(alloc, tokens, nests, loops)
}

// The branch behind `else`, if there is one.
#[tactic(auto, unfolding(crate::specs::Statements::else_branch))]
#[cycle(statements)]
fn else_branch(
    alloc: Global,
    tokens: &mut Tokens<'_>,
    nests: usize,
    loops: usize,
) -> Result<Option<Node>, Stop>
    requires { nests < 2 ^ 32 }
    ensures { Reads (spec.else_branch nests (spec.inner nests loops) tokens.old) result tokens.new }
{
    if !tokens.eat(Symbol::Else) {
        return Ok(None);
    }
    let other = branch(alloc, tokens, nests, loops)?;
    Ok(Some(other))
}

// A branch with its condition, and the one behind `else` if there is one.
#[tactic(auto, unfolding(crate::specs::Statements::if_branch))]
#[cycle(statements)]
fn if_branch(
    alloc: Global,
    tokens: &mut Tokens<'_>,
    nests: usize,
    loops: usize,
) -> Result<Node, Stop>
    requires { nests < 2 ^ 32 }
    ensures { Reads (spec.if_branch nests (spec.inner nests loops) tokens.old) result tokens.new }
{
    tokens.take();
    open_round(tokens, nests)?;
    let condition = inner_value(alloc, tokens, nests)?;
    tokens.expect(Symbol::CloseRound)?;
    let then = branch(alloc, tokens, nests, loops)?;
    let other = else_branch(alloc, tokens, nests, loops)?;
    let made = Branch {
        condition,
        then,
        other,
    };
    Ok(Node::If(Boxed::new(alloc, made)?))
}

// The statements of a block, and its closing bracket.
#[cycle(statements)]
fn block_nodes(
    alloc: Global,
    tokens: &mut Tokens<'_>,
    nests: usize,
    loops: usize,
) -> Result<Items<Node>, Stop>
    requires some { 0 < nests }
    requires small { nests < 2 ^ 32 }
    ensures { Reads (spec.block_nodes (spec.inner nests loops) tokens.old) result tokens.new }
{
    let mut nodes = Items::new(alloc);
    for _turn in 0..tokens.left() {
        if tokens.eat(Symbol::CloseCurly) {
            return Ok(nodes);
        }
        let next = inner(alloc, tokens, nests, loops)?;
        nodes.push(next)?;
    }
    Err(tokens.refuse())
}

// A block of statements in curly brackets.
#[tactic(auto, unfolding(crate::specs::Statements::block))]
#[cycle(statements)]
fn block(alloc: Global, tokens: &mut Tokens<'_>, nests: usize, loops: usize) -> Result<Node, Stop>
    requires { nests < 2 ^ 32 }
    ensures { Reads (spec.block nests (spec.inner nests loops) tokens.old) result tokens.new }
{
    tokens.open_nest(nests)?;
    tokens.take();
    let nodes = block_nodes(alloc, tokens, nests, loops)?;
    Ok(Node::Block(nodes))
}

// A statement by its first token.
#[tactic(auto, unfolding(crate::specs::Statements::statement_rule))]
#[cycle(statements)]
fn statement_rule(
    alloc: Global,
    tokens: &mut Tokens<'_>,
    nests: usize,
    loops: usize,
) -> Result<Node, Stop>
    requires { nests < 2 ^ 32 }
    ensures { Reads (spec.statement_rule nests loops (spec.inner nests loops) (spec.body nests loops) tokens.old) result tokens.new }
{
    match tokens.peek() {
        Symbol::For => for_loop(alloc, tokens, nests, loops),
        Symbol::If => if_branch(alloc, tokens, nests, loops),
        Symbol::OpenCurly => block(alloc, tokens, nests, loops),
        Symbol::Semicolon => {
            tokens.take();
            Ok(Node::Empty)
        }
        Symbol::Name => Ok(Node::Assign(assign(alloc, tokens, nests)?)),
        _ => Err(tokens.refuse()),
    }
}

/// A statement in which so many nests and loops may still be opened.
#[cycle(statements)]
pub fn statement(
    alloc: Global,
    tokens: &mut Tokens<'_>,
    nests: usize,
    loops: usize,
) -> Result<Node, Stop>
    requires { nests < 2 ^ 32 }
    ensures { Reads (spec.statement nests loops tokens.old) result tokens.new }
{
    statement_rule(alloc, tokens, nests, loops)
}

// A statement in one nest more.
#[cycle(statements)]
fn inner(alloc: Global, tokens: &mut Tokens<'_>, nests: usize, loops: usize) -> Result<Node, Stop>
    requires some { 0 < nests }
    requires small { nests < 2 ^ 32 }
    ensures { Reads (spec.inner nests loops tokens.old) result tokens.new }
{
    statement(alloc, tokens, nests - 1, loops)
}

// A statement in one loop more.
#[cycle(statements)]
fn body(alloc: Global, tokens: &mut Tokens<'_>, nests: usize, loops: usize) -> Result<Node, Stop>
    requires some { 0 < loops }
    requires small { nests < 2 ^ 32 }
    ensures { Reads (spec.body nests loops tokens.old) result tokens.new }
{
    statement(alloc, tokens, nests, loops - 1)
}

/// All statements of a region.
pub fn region(alloc: Global, tokens: &mut Tokens<'_>) -> Result<List<Node>, Stop>
    ensures { Reads (spec.region tokens.old) result tokens.new }
{
    let mut nodes = List::new(alloc);
    for _turn in 0..tokens.left() {
        if same_symbol(tokens.peek(), Symbol::End) {
            return Ok(nodes);
        }
        let next = statement(alloc, tokens, MAX_NESTS, MAX_LOOPS)?;
        nodes.push(next)?;
    }
    tokens.expect(Symbol::End)?;
    Ok(nodes)
}
