//! Whether assignments stand in statements.

ghost use Rattle.std.specs.Prelude.{◌≡◌, ℕ, List};
ghost use Rattle.region_extract.specs.Walks as spec;
ghost use Rattle.region_trees.specs.Statements.{branch_of, loop_of, statement_of, statements_of};

use c_parser::{Branch, Loop, Node};

/// Whether an assignment stands in a statement.
#[cycle(assignments)]
pub fn has_assignment(node: &Node) -> bool
    ensures { (source : List ℕ) → result ≡ spec.has_assignment (statement_of source node.now) }
{
    match node {
        Node::For(inner) => in_loop(inner.get()),
        Node::If(inner) => in_branch(inner.get()),
        Node::Block(nodes) => have_assignment(nodes.as_slice()),
        Node::Assign(_) => true,
        Node::Empty => false,
    }
}

// Whether one stands in a loop.
#[cycle(assignments)]
fn in_loop(whole: &Loop) -> bool
    ensures { (source : List ℕ) → result ≡ spec.has_assignment (loop_of source whole.now) }
{
    has_assignment(&whole.body)
}

// Whether one stands in a branch of a condition.
#[cycle(assignments)]
fn in_branch(branch: &Branch) -> bool
    ensures { (source : List ℕ) → result ≡ spec.has_assignment (branch_of source branch.now) }
{
    if has_assignment(&branch.then) {
        return true;
    }
    match &branch.other {
        None => false,
        Some(other) => has_assignment(other),
    }
}

// Whether one stands in some statements.
#[cycle(assignments)]
fn have_assignment(nodes: &[Node]) -> bool
    ensures { (source : List ℕ) → result ≡ spec.have_assignment (statements_of source nodes.now) }
{
    for node in nodes {
        if has_assignment(node) {
            return true;
        }
    }
    false
}
