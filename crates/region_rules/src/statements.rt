//! The first place of a region that breaks the rules.

ghost use Rattle.std.specs.Prelude.{◌≡◌, unsigned_abs, Some};
ghost use Rattle.region_trees.specs.Terms.{order_of, sum_of, value_of};
ghost use Rattle.region_trees.specs.Statements.{step_of, assignment_of, statement_of, statements_of, branch_of, loop_of};
ghost use Rattle.region_trees.specs.Regions.{passed, start_of, limit_of, node_of, nodes_of};
ghost use Rattle.region_trees.specs.Regions as region;
ghost use Rattle.region_rules.specs.Facts.{size_of};
ghost use Rattle.region_rules.specs.Faults.{fault_of};
ghost use Rattle.region_rules.specs.Faults as spec;

use crate::facts::{Facts, Size};
use crate::numbers::number_size;
use crate::references::{earlier, target_fault, value_fault};
use crate::values::{sum_facts, value_facts};
use c_lexer::piece_bytes;
use c_parser::{Assign, Branch, Loop, Node, Rel, Step, Sum, Value};

// A loop that goes down, by its comparison.
fn is_downward(rel: Rel) -> bool
    ensures { result ≡ region.is_downward (order_of rel) }
{
    match rel {
        Rel::Less => false,
        Rel::LessEqual => false,
        Rel::Greater => true,
        Rel::GreaterEqual => true,
    }
}

// The size of a step, up or down.
fn step_size(source: &[u8], step: Step) -> Size
    ensures { result ≡ size_of (unsigned_abs (step_of source.now step)) }
{
    match step {
        Step::PostUp => Size::One,
        Step::PreUp => Size::One,
        Step::AddUp(digits) => number_size(piece_bytes(source, digits)),
        Step::PostDown => Size::One,
        Step::PreDown => Size::One,
        Step::SubDown(digits) => number_size(piece_bytes(source, digits)),
    }
}

// A step that goes down.
fn goes_down(step: Step) -> bool
    ensures { result ≡ spec.goes_down step }
{
    match step {
        Step::PostUp => false,
        Step::PreUp => false,
        Step::AddUp(_) => false,
        Step::PostDown => true,
        Step::PreDown => true,
        Step::SubDown(_) => true,
    }
}

// The step goes toward the bound.
fn is_step(source: &[u8], rel: Rel, step: Step) -> bool
    ensures { result ≡ region.is_step (order_of rel) (step_of source.now step) }
{
    if step_size(source, step) == Size::Zero {
        return false;
    }
    if is_downward(rel) {
        goes_down(step)
    } else {
        !goes_down(step)
    }
}

// The value is a start, where the step is of this size.
fn is_start(rel: Rel, size: Size, facts: Facts) -> bool
    ensures { result ≡ spec.is_start_by (order_of rel) size facts }
{
    let is_long = size == Size::Larger;
    if is_long && !facts.affinity.is_affine() {
        return false;
    }
    if is_downward(rel) {
        facts.is_upper_bound
    } else {
        facts.is_lower_bound
    }
}

// The value is a bound.
fn is_bound(rel: Rel, facts: Facts) -> bool
    ensures { result ≡ spec.is_bound_by (order_of rel) facts }
{
    if is_downward(rel) {
        facts.is_lower_bound
    } else {
        facts.is_upper_bound
    }
}

// The place of a start at fault.
fn start_fault(source: &[u8], rel: Rel, step: Step, start: &Sum) -> Option<usize>
    ensures { result ≡ fault_of (start_of (order_of rel) (step_of source.now step) (sum_of source.now start.now)) }
{
    let facts = sum_facts(source, start);
    if is_start(rel, step_size(source, step), facts) {
        None
    } else {
        Some(start.at)
    }
}

// The place of a bound at fault.
fn bound_fault(source: &[u8], rel: Rel, bound: &Sum) -> Option<usize>
    ensures { result ≡ fault_of (limit_of (order_of rel) (sum_of source.now bound.now)) }
{
    let facts = sum_facts(source, bound);
    if is_bound(rel, facts) {
        None
    } else {
        Some(bound.at)
    }
}

// The place of a step at fault.
fn step_fault(source: &[u8], rel: Rel, step: Step, at: usize) -> Option<usize>
    ensures { result ≡ fault_of (passed (region.is_step (order_of rel)) at (Some (step_of source.now step))) }
{
    if is_step(source, rel, step) {
        None
    } else {
        Some(at)
    }
}

// The place of a condition at fault.
fn condition_fault(source: &[u8], condition: &Value) -> Option<usize>
    ensures { result ≡ spec.condition_fault_of (value_of source.now condition.now) }
{
    if value_facts(source, condition).is_condition {
        None
    } else {
        Some(condition.at)
    }
}

// The first fault of a loop's head: its start, its bound, its step.
fn head_fault(source: &[u8], head: &Loop) -> Option<usize>
    ensures { result ≡ spec.head_fault_of source.now head.now }
{
    if let Some(at) = start_fault(source, head.rel, head.step, &head.start) {
        return Some(at);
    }
    if let Some(at) = bound_fault(source, head.rel, &head.bound) {
        return Some(at);
    }
    step_fault(source, head.rel, head.step, head.step_at)
}

// The first fault of an assignment: its target, its right side.
fn assign_fault(source: &[u8], assign: &Assign) -> Option<usize>
    ensures { result ≡ fault_of (node_of (assignment_of source.now assign.now)) }
{
    if let Some(at) = target_fault(source, &assign.target) {
        return Some(at);
    }
    value_fault(source, &assign.value)
}

#[cycle(statements)]
fn loop_fault(source: &[u8], whole: &Loop) -> Option<usize>
    ensures { result ≡ fault_of (node_of (loop_of source.now whole.now)) }
{
    earlier(head_fault(source, whole), node_fault(source, &whole.body))
}

#[cycle(statements)]
fn branch_fault(source: &[u8], branch: &Branch) -> Option<usize>
    ensures { result ≡ fault_of (node_of (branch_of source.now branch.now)) }
{
    let fault = earlier(
        condition_fault(source, &branch.condition),
        node_fault(source, &branch.then),
    );
    match &branch.other {
        None => fault,
        Some(other) => earlier(fault, node_fault(source, other)),
    }
}

#[cycle(statements)]
fn node_fault(source: &[u8], node: &Node) -> Option<usize>
    ensures { result ≡ fault_of (node_of (statement_of source.now node.now)) }
{
    match node {
        Node::For(whole) => loop_fault(source, whole.get()),
        Node::If(branch) => branch_fault(source, branch.get()),
        Node::Block(nodes) => nodes_fault(source, nodes.as_slice()),
        Node::Assign(assign) => assign_fault(source, assign),
        Node::Empty => None,
    }
}

#[cycle(statements)]
fn nodes_fault(source: &[u8], nodes: &[Node]) -> Option<usize>
    ensures { result ≡ fault_of (nodes_of (statements_of source.now nodes.now)) }
{
    let mut fault = None;
    for node in nodes {
        fault = earlier(fault, node_fault(source, node));
    }
    fault
}

/// The place of the first start, bound, step, condition or subscript that breaks the rules, in the order
/// of the text; a condition is at fault at its first byte, and so are a start, a bound and a subscript.
/// `None` where each is within the rules.
pub fn first_fault(source: &[u8], nodes: &[Node]) -> Option<usize>
    ensures { result ≡ fault_of (nodes_of (statements_of source.now nodes.now)) }
{
    nodes_fault(source, nodes)
}
