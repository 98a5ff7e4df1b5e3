//! The walk over the statements of a region.

ghost use Rattle.std.specs.Prelude.{◌≡◌, ℕ, List, IfOk, OnOk};
ghost use Rattle.clan_rows.specs.Contents.{said};
ghost use Rattle.clan_walk.specs.Walk.{direction_by, entered_branch, is_open};
ghost use Rattle.region_extract.specs.Walks as spec;
ghost use Rattle.region_trees.specs.Statements.{assignment_of, branch_of, is_update, loop_of, statement_of, statements_of, text_of};
ghost use Rattle.region_trees.specs.Terms.{order_of, target_of, value_of};

use crate::accesses::{add_target, scope_at};
use crate::assignments::has_assignment;
use crate::reads::read_value;
use crate::spaces::spaced;
use c_lexer::piece_bytes;
use c_parser::{Assign, AssignSign, Branch, Loop, Node, Piece, Rel, Value};
use clan_rows::{Count, Layer};
use clan_walk::{Direction, Extraction};
use region_forms::{condition_layer, loop_layer};
use scop_data::AccessKind;
use std::alloc::Global;
use suite_base::{List, NoMemory, Text};

/// Walks over statements.
#[cycle(walk)]
pub fn walk_nodes(
    alloc: Global,
    source: &[u8],
    nodes: &[Node],
    place: &mut Extraction,
) -> Result<(), NoMemory>
    ensures { OnOk result (spec.WalksAll (statements_of source.now nodes.now) place.old place.new) }
{
    for node in nodes {
        walk_node(alloc, source, node, place)?;
    }
    Ok(())
}

// Over one statement.
#[cycle(walk)]
fn walk_node(
    alloc: Global,
    source: &[u8],
    node: &Node,
    place: &mut Extraction,
) -> Result<(), NoMemory>
    ensures { OnOk result (spec.Walks (statement_of source.now node.now) place.old place.new) }
{
    match node {
        Node::For(inner) => walk_loop(alloc, source, inner.get(), place),
        Node::If(inner) => walk_branch(alloc, source, inner.get(), place),
        Node::Block(nodes) => walk_nodes(alloc, source, nodes.as_slice(), place),
        Node::Assign(assign) => walk_assign(alloc, source, assign, place),
        Node::Empty => Ok(()),
    }
}

// Over a loop and its body.
#[cycle(walk)]
fn walk_loop(
    alloc: Global,
    source: &[u8],
    whole: &Loop,
    place: &mut Extraction,
) -> Result<(), NoMemory>
    ensures { OnOk result (spec.Walks (loop_of source.now whole.now) place.old place.new) }
{
    enter_loop(alloc, source, whole, place)?;
    walk_node(alloc, source, &whole.body, place)?;
    place.leave_loop(alloc);
    Ok(())
}

// Over both branches of a condition.
#[cycle(walk)]
fn walk_branch(
    alloc: Global,
    source: &[u8],
    branch: &Branch,
    place: &mut Extraction,
) -> Result<(), NoMemory>
    ensures { OnOk result (spec.Walks (branch_of source.now branch.now) place.old place.new) }
{
    enter_branch(alloc, source, true, &branch.condition, &branch.then, place)?;
    walk_node(alloc, source, &branch.then, place)?;
    place.leave_branch();
    match &branch.other {
        None => Ok(()),
        Some(other) => {
            enter_branch(alloc, source, false, &branch.condition, other, place)?;
            walk_node(alloc, source, other, place)?;
            place.leave_branch();
            Ok(())
        }
    }
}

// Enters a loop.
fn enter_loop(
    alloc: Global,
    source: &[u8],
    head: &Loop,
    place: &mut Extraction,
) -> Result<(), NoMemory>
    ensures { OnOk result (spec.EntersLoop source.now head.now place.old place.new) }
{
    let layer = layer_of_loop(alloc, source, head, place)?;
    let name = Text::from_bytes(alloc, piece_bytes(source, head.name))?;
    place.enter_loop(alloc, &name, direction(head.rel), &layer)
}

// The layer of a loop at a place, where something inside asks for it.
fn layer_of_loop(
    alloc: Global,
    source: &[u8],
    head: &Loop,
    place: &Extraction,
) -> Result<Layer, NoMemory>
    ensures { IfOk result (λ l. spec.IsLoopHere source.now head.now place.now (said l)) }
{
    if !asks_layer(&head.body, place) {
        return Ok(no_layer(alloc));
    }
    let scope = scope_at(source, place);
    loop_layer(alloc, &scope, head)
}

// Which way a loop runs.
fn direction(rel: Rel) -> Direction
    ensures { result ≡ direction_by (order_of rel) }
{
    match rel {
        Rel::Less | Rel::LessEqual => Direction::Upward,
        Rel::Greater | Rel::GreaterEqual => Direction::Downward,
    }
}

// Enters the branch of a condition that has this truth.
fn enter_branch(
    alloc: Global,
    source: &[u8],
    truth: bool,
    condition: &Value,
    inside: &Node,
    place: &mut Extraction,
) -> Result<(), NoMemory>
    ensures { OnOk result (spec.EntersBranch truth (value_of source.now condition.now).term (statement_of source.now inside.now) place.old place.new) }
{
    let layer = layer_of_condition(alloc, source, truth, condition, inside, place)?;
    place.enter_branch(alloc, &layer)
}

// The layer of a condition that has this truth at a place, where the branch inside asks for it.
fn layer_of_condition(
    alloc: Global,
    source: &[u8],
    truth: bool,
    condition: &Value,
    inside: &Node,
    place: &Extraction,
) -> Result<Layer, NoMemory>
    ensures { IfOk result (λ l. spec.IsTestHere truth (value_of source.now condition.now).term (statement_of source.now inside.now) place.now (said l)) }
{
    if !asks_layer(inside, place) {
        return Ok(no_layer(alloc));
    }
    let scope = scope_at(source, place);
    condition_layer(alloc, &scope, truth, condition)
}

// A layer that is never asked for.
fn no_layer(alloc: Global) -> Layer {
    Layer {
        count: Count {
            parts: 0,
            rows: 0,
            locals: 0,
        },
        fits: true,
        parts: List::new(alloc),
    }
}

// Whether a statement asks for the layers round it: where none is made any more, or none stands in it, they
// would be made for nothing, and one layer can be large.
fn asks_layer(node: &Node, place: &Extraction) -> bool
    ensures { (source : List ℕ) → result ≡ spec.asks_layer (statement_of source node.now) place.now }
{
    place.is_open() && has_assignment(node)
}

// Over an assignment: what it reads, and then what it writes.
fn walk_assign(
    alloc: Global,
    source: &[u8],
    assign: &Assign,
    place: &mut Extraction,
) -> Result<(), NoMemory>
    ensures { OnOk result (spec.Walks (assignment_of source.now assign.now) place.old place.new) }
{
    if !place.is_open() {
        place.skip_assignment(alloc);
        return Ok(());
    }
    read_updated(alloc, source, assign, place)?;
    read_value(alloc, source, &assign.value, place)?;
    add_target(alloc, source, AccessKind::Write, &assign.target, place)?;
    let text = text_of(alloc, source, assign.body)?;
    place.assign(alloc, text.bytes())
}

// Adds the read of the target by `+=` and the like.
fn read_updated(
    alloc: Global,
    source: &[u8],
    assign: &Assign,
    place: &mut Extraction,
) -> Result<(), NoMemory>
    ensures { OnOk result (spec.ReadsUpdated (is_update assign.now.sign) (target_of source.now assign.now.target) place.old place.new) }
{
    if is_update(assign.sign) {
        add_target(alloc, source, AccessKind::Read, &assign.target, place)
    } else {
        Ok(())
    }
}

// Whether the sign is another than `=`.
fn is_update(sign: AssignSign) -> bool
    ensures { result ≡ is_update sign }
{
    match sign {
        AssignSign::Plain => false,
        AssignSign::Plus => true,
        AssignSign::Minus => true,
        AssignSign::Times => true,
        AssignSign::Divide => true,
        AssignSign::Remainder => true,
    }
}

// The text of an assignment, with its `;`.
fn text_of(alloc: Global, source: &[u8], body: Piece) -> Result<Text, NoMemory>
    ensures { IfOk result (λ text. text ≡ text_of source.now body) }
{
    let mut text = spaced(alloc, piece_bytes(source, body))?;
    text.push(b';')?;
    Ok(text)
}
