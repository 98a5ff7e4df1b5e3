//! The order in which columns are projected.

ghost use Rattle.std.specs.Prelude.{◌≡◌, ◌+◌, ◌≤◌, ◌^◌, ◌++◌, IfOk, OnOk};
ghost use Rattle.relation_core.specs.Systems.{columns};
ghost use Rattle.elim_core.specs.Elimination.{Below};
ghost use Rattle.elim_core.specs.Peaks.{down, column_order};

use relation_core::Part;
use std::alloc::Global;
use suite_base::NoMemory;

/// The columns of locals, inputs, outputs and parameters, each from its last.
#[tactic(auto, using(crate::proofs::ColumnOrder::order_below))]
pub fn column_order(alloc: Global, system: &Part) -> Result<Vec<usize>, NoMemory>
    ensures order { IfOk result (λ order. order.items ≡ column_order system.now.shape) }
    ensures below { Below (columns system.now.shape) (column_order system.now.shape) }
{
    let shape = system.shape();
    let mut order = Vec::new(alloc);
    push_down(&mut order, shape.outputs + shape.inputs, shape.locals)?;
    push_down(&mut order, shape.outputs, shape.inputs)?;
    push_down(&mut order, 0, shape.outputs)?;
    push_down(
        &mut order,
        shape.outputs + shape.inputs + shape.locals,
        shape.parameters,
    )?;
    Ok(order)
}

// Appends the places below `start + count`, down to `start`.
fn push_down(columns: &mut Vec<usize>, start: usize, count: usize) -> Result<(), NoMemory>
    requires { start + count ≤ 2 ^ 63 }
    ensures { OnOk result (columns.new.items ≡ columns.old.items ++ down start count) }
{
    let mut left = count;
    while left > 0 {
        left -= 1;
        columns.push(start + left)?;
    }
    Ok(())
}
