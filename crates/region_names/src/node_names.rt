//! The names of statements, told in the order of the text.

ghost use Rattle.std.specs.Prelude.{◌≡◌, OnOk};
ghost use Rattle.region_names.specs.Registers.{after};
ghost use Rattle.region_names.specs.Walks.{assign_names, branch_names, loop_names, node_names, nodes_names};

use crate::occurrences::{tell_left, tell_loop_name};
use crate::registers::Register;
use crate::scopes::scope_inside;
use crate::value_names::{tell_subscripts, tell_sum, tell_value};
use c_parser::{Assign, Branch, Loop, Node, Piece};
use std::alloc::Global;
use suite_base::NoMemory;

/// The names of statements, in the scope of these loops.
#[cycle(nodes)]
pub fn tell_nodes<'a>(
    alloc: Global,
    source: &'a [u8],
    scope: &[Piece],
    nodes: &[Node],
    register: &mut Register<'a>,
) -> Result<(), NoMemory>
    ensures { OnOk result (register.new ≡ after register.old (nodes_names source.now scope.now nodes.now)) }
{
    for item in nodes {
        tell_node(alloc, source, scope, item, register)?;
    }
    Ok(())
}

// The names of a statement.
#[cycle(nodes)]
fn tell_node<'a>(
    alloc: Global,
    source: &'a [u8],
    scope: &[Piece],
    node: &Node,
    register: &mut Register<'a>,
) -> Result<(), NoMemory>
    ensures { OnOk result (register.new ≡ after register.old (node_names source.now scope.now node.now)) }
{
    match node {
        Node::For(inner) => tell_loop(alloc, source, scope, inner.get(), register),
        Node::If(inner) => tell_branch(alloc, source, scope, inner.get(), register),
        Node::Block(nodes) => tell_nodes(alloc, source, scope, nodes.as_slice(), register),
        Node::Assign(assign) => tell_assign(source, scope, assign, register),
        Node::Empty => Ok(()),
    }
}

// The names of a loop: its own once for its head, the start, the bound, and the body in its scope.
#[cycle(nodes)]
fn tell_loop<'a>(
    alloc: Global,
    source: &'a [u8],
    scope: &[Piece],
    head: &Loop,
    register: &mut Register<'a>,
) -> Result<(), NoMemory>
    ensures { OnOk result (register.new ≡ after register.old (loop_names source.now scope.now head.now)) }
{
    tell_loop_name(source, scope, head.name, register)?;
    tell_sum(source, scope, true, &head.start, register)?;
    tell_sum(source, scope, true, &head.bound, register)?;
    let inside = scope_inside(alloc, head.name, scope)?;
    tell_node(alloc, source, inside.as_slice(), &head.body, register)
}

// The names of a branch: the condition's, and those of both sides.
#[cycle(nodes)]
fn tell_branch<'a>(
    alloc: Global,
    source: &'a [u8],
    scope: &[Piece],
    branch: &Branch,
    register: &mut Register<'a>,
) -> Result<(), NoMemory>
    ensures { OnOk result (register.new ≡ after register.old (branch_names source.now scope.now branch.now)) }
{
    tell_value(source, scope, true, &branch.condition, register)?;
    tell_node(alloc, source, scope, &branch.then, register)?;
    match &branch.other {
        None => Ok(()),
        Some(other) => tell_node(alloc, source, scope, other, register),
    }
}

// The names of an assignment: the left side, and the right side, which is no place of control.
fn tell_assign<'a>(
    source: &'a [u8],
    scope: &[Piece],
    assign: &Assign,
    register: &mut Register<'a>,
) -> Result<(), NoMemory>
    ensures { OnOk result (register.new ≡ after register.old (assign_names source.now scope.now assign.now)) }
{
    tell_left(source, &assign.target, register)?;
    tell_subscripts(source, scope, &assign.target, register)?;
    tell_value(source, scope, false, &assign.value, register)
}
