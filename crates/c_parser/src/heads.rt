//! The head of a loop, and the signs between the rules of statements.

ghost use Rattle.std.specs.Prelude.{◌≡◌, ◌<◌, OnOk};
ghost use Rattle.c_lexer.specs.Input.{Reads};
ghost use Rattle.c_parser.specs.Statements as spec;

use crate::signs::rel_sign;
use crate::tree::{AssignSign, Rel, Step, Sum};
use crate::values::inner_sum;
use c_lexer::{Piece, Stop, Symbol, Tokens, same_symbol};
use std::alloc::Global;

/// `(name = start; name rel bound; step)`, where `step_at` is the place of the step's first byte.
#[derive(Drop)]
pub struct Head {
    pub name: Piece,
    pub start: Sum,
    pub rel: Rel,
    pub bound: Sum,
    pub step: Step,
    pub step_at: usize,
}

// The sign of an assignment; `None` where the symbol is another.
fn assign_sign(symbol: Symbol) -> Option<AssignSign>
    ensures { result ≡ spec.assign_sign symbol }
{
    match symbol {
        Symbol::Assign => Some(AssignSign::Plain),
        Symbol::PlusAssign => Some(AssignSign::Plus),
        Symbol::MinusAssign => Some(AssignSign::Minus),
        Symbol::TimesAssign => Some(AssignSign::Times),
        Symbol::DivideAssign => Some(AssignSign::Divide),
        Symbol::RemainderAssign => Some(AssignSign::Remainder),
        _ => None,
    }
}

// Whether a loop with this comparison goes upward.
fn is_upward(rel: Rel) -> bool
    ensures { result ≡ spec.is_upward rel }
{
    match rel {
        Rel::Less | Rel::LessEqual => true,
        Rel::Greater | Rel::GreaterEqual => false,
    }
}

// The comparison of a loop's head.
#[tactic(auto, unfolding(crate::specs::Statements::rel))]
fn rel(tokens: &mut Tokens<'_>) -> Result<Rel, Stop>
    ensures { Reads (spec.rel tokens.old) result tokens.new }
{
    let Some(rel) = rel_sign(tokens.peek()) else {
        return Err(tokens.refuse());
    };
    tokens.take();
    Ok(rel)
}

#[tactic(auto, unfolding(crate::specs::Statements::assigned))]
pub fn assigned(tokens: &mut Tokens<'_>) -> Result<AssignSign, Stop>
    ensures { Reads (spec.assigned tokens.old) result tokens.new }
{
    let Some(sign) = assign_sign(tokens.peek()) else {
        return Err(tokens.refuse());
    };
    tokens.take();
    Ok(sign)
}

// A step that begins with the name: `i++`, `i += 2` upward, `i--`, `i -= 2` downward.
#[tactic(auto, unfolding(crate::specs::Statements::step_behind))]
fn step_behind(tokens: &mut Tokens<'_>, up: bool, name: Piece) -> Result<Step, Stop>
    ensures { Reads (spec.step_behind up name tokens.old) result tokens.new }
{
    tokens.same_name(name)?;
    if tokens.eat(step_sign(up)) {
        return Ok(post_step(up));
    }
    tokens.expect(add_sign(up))?;
    let number = tokens.expect(Symbol::Integer)?;
    Ok(number_step(up, number))
}

// The step of a loop that goes upward or downward.
#[tactic(auto, unfolding(crate::specs::Statements::step))]
fn step(tokens: &mut Tokens<'_>, up: bool, name: Piece) -> Result<Step, Stop>
    ensures { Reads (spec.step up name tokens.old) result tokens.new }
{
    if !tokens.eat(step_sign(up)) {
        return step_behind(tokens, up, name);
    }
    tokens.same_name(name)?;
    Ok(pre_step(up))
}

/// A round bracket, which opens a nest.
#[tactic(auto, unfolding(crate::specs::Statements::open_round))]
pub fn open_round(tokens: &mut Tokens<'_>, nests: usize) -> Result<(), Stop>
    ensures reads { Reads (spec.open_round nests tokens.old) result tokens.new }
    ensures some { OnOk result (0 < nests) }
{
    if !same_symbol(tokens.peek(), Symbol::OpenRound) {
        return Err(tokens.refuse());
    }
    tokens.open_nest(nests)?;
    tokens.take();
    Ok(())
}

// The second half of a head, from the name before the comparison on.
#[tactic(auto, unfolding(crate::specs::Statements::head_rest))]
fn head_rest(
    alloc: Global,
    tokens: &mut Tokens<'_>,
    nests: usize,
    name: Piece,
    start: Sum,
) -> Result<Head, Stop>
    requires { 0 < nests }
    ensures { Reads (spec.head_rest nests name start tokens.old) result tokens.new }
{
    tokens.same_name(name)?;
    let rel = rel(tokens)?;
    let bound = inner_sum(alloc, tokens, nests)?;
    tokens.expect(Symbol::Semicolon)?;
    let step_at = tokens.position();
    let step = step(tokens, is_upward(rel), name)?;
    tokens.expect(Symbol::CloseRound)?;
    Ok(Head {
        name,
        start,
        rel,
        bound,
        step,
        step_at,
    })
}

/// The head of a loop, from its bracket on.
#[tactic(auto, unfolding(crate::specs::Statements::head))]
pub fn loop_head(alloc: Global, tokens: &mut Tokens<'_>, nests: usize) -> Result<Head, Stop>
    ensures { Reads (spec.head nests tokens.old) result tokens.new }
{
    open_round(tokens, nests)?;
    tokens.eat(Symbol::Int);
    let name = tokens.expect(Symbol::Name)?;
    tokens.expect(Symbol::Assign)?;
    let start = inner_sum(alloc, tokens, nests)?;
    tokens.expect(Symbol::Semicolon)?;
    head_rest(alloc, tokens, nests, name, start)
}

// The sign of a step by 1.
fn step_sign(up: bool) -> Symbol
    ensures { result ≡ spec.step_sign up }
{
    if up {
        Symbol::Increment
    } else {
        Symbol::Decrement
    }
}

// The sign of a step by a number.
fn add_sign(up: bool) -> Symbol
    ensures { result ≡ spec.add_sign up }
{
    if up {
        Symbol::PlusAssign
    } else {
        Symbol::MinusAssign
    }
}

// The step `++i` or `--i`.
fn pre_step(up: bool) -> Step
    ensures { result ≡ spec.pre_step up }
{
    if up { Step::PreUp } else { Step::PreDown }
}

// The step `i++` or `i--`.
fn post_step(up: bool) -> Step
    ensures { result ≡ spec.post_step up }
{
    if up { Step::PostUp } else { Step::PostDown }
}

// The step by this number.
fn number_step(up: bool, number: Piece) -> Step
    ensures { result ≡ spec.number_step up number }
{
    if up {
        Step::AddUp(number)
    } else {
        Step::SubDown(number)
    }
}
