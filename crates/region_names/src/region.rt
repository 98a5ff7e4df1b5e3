//! The names of a region.

ghost use Rattle.std.specs.Prelude.{◌≡◌, [], IfOk};
ghost use Rattle.region_trees.specs.Occurrences.{occurrences_in_all};
ghost use Rattle.region_trees.specs.Statements.{statements_of};
ghost use Rattle.region_names.specs.Answers as spec;

use crate::node_names::tell_nodes;
use crate::registers::Register;
use crate::roles::Listed;
use c_parser::Node;
use std::alloc::Global;
use suite_base::{List, NoMemory, Text};

/// The parameters and the arrays of a region, each in the order of their first occurrences.
#[derive(Drop)]
pub struct Names {
    pub parameters: List<Text>,
    pub arrays: List<Text>,
}

/// The names of the statements of a region, whose spans lie in `source`; or the place, in bytes of the
/// source from 0, of the first occurrence that gives its name another role than the first, or a loop the
/// name of a loop around it.
pub fn names_of(
    alloc: Global,
    source: &[u8],
    nodes: &[Node],
) -> Result<Result<Names, usize>, NoMemory>
    ensures { IfOk result (λ it. it ≡ spec.names_or_clash (occurrences_in_all [] (statements_of source.now nodes.now))) }
{
    let mut first = Register::new(alloc);
    tell_nodes(alloc, source, &[], nodes, &mut first)?;
    if !first.plain {
        return kept_names(alloc, &first);
    }
    let mut second = first.restarted(alloc);
    tell_nodes(alloc, source, &[], nodes, &mut second)?;
    kept_names(alloc, &second)
}

// The answer where all occurrences were told.
fn kept_names(alloc: Global, register: &Register<'_>) -> Result<Result<Names, usize>, NoMemory>
    ensures { IfOk result (λ names. names ≡ spec.kept_names register.now) }
{
    match register.clash {
        Some(at) => Ok(Err(at)),
        None => Ok(Ok(Names {
            parameters: register.roles.names(alloc, Listed::Parameters)?,
            arrays: register.roles.names(alloc, Listed::Arrays)?,
        })),
    }
}
