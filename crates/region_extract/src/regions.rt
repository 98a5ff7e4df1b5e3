//! The SCoP of a region that was parsed.

ghost use Rattle.std.specs.Prelude.{◌≡◌, IfOk, None, Ok};
ghost use Rattle.c_lexer.specs.declared.regions.Span.{Span};
ghost use Rattle.c_parser.specs.Regions.{IsRegion};
ghost use Rattle.clan_extract.specs.ReadBack.{IsPrintableRegion};
ghost use Rattle.clan_extract.specs.Regions.{Nodes};
ghost use Rattle.region_extract.specs.Answers as spec;
ghost use Rattle.region_extract.specs.Walks as walks;
ghost use Rattle.region_rules.specs.Faults.{fault_of};
ghost use Rattle.region_trees.specs.Regions.{nodes_of};
ghost use Rattle.region_trees.specs.Statements.{statements_of};
ghost use Rattle.region_trees.specs.Translation.{clan_of, of_region};

use crate::places::place_at;
use crate::walks::walk_nodes;
use c_parser::{Node, Region};
use clan_walk::Extraction;
use region_names::{Names, names_of};
use region_rules::first_fault;
use scop_core::Scop;
use std::alloc::Global;
use suite_base::{Fail, NoMemory, Refusal};

/// The SCoP of a region that the parser derived from its source.
///
/// # Errors
/// The first of: `NameClash` of two occurrences of names; `NotAffine` of a start, bound, step, condition or
/// subscript; `Limit` of the parameters, arrays or statements; and of the first statement that has one,
/// `Limit` of its accesses or subscripts, `TooManyParts`, `Limit` of its rows or locals, `Overflow`.
pub fn extract(alloc: Global, region: &Region<'_>) -> Result<Scop, Fail>
    requires parsed { (span : Span) × IsRegion region.now.source.now span region.now.nodes }
    ensures { spec.Extracts (clan_of region.now.source.now region.now.nodes) result }
{
    let source = region.source;
    let nodes = region.nodes.as_slice();
    match names_of(alloc, source, nodes) {
        Err(NoMemory) => Err(Fail::Memory),
        Ok(Err(at)) => match place_at(source, at) {
            Err(NoMemory) => Err(Fail::Memory),
            Ok(place) => Err(Fail::Refused(Refusal::NameClash(place))),
        },
        Ok(Ok(names)) => named_scop(alloc, source, nodes, names),
    }
}

// The SCoP of statements with these names, unless a place of control breaks the rules.
fn named_scop(alloc: Global, source: &[u8], nodes: &[Node], names: Names) -> Result<Scop, Fail>
    requires printable { (region : Nodes) → nodes_of (statements_of source.now nodes.now) ≡ Ok region → IsPrintableRegion names.parameters names.arrays region }
    ensures { spec.Extracts (of_region source.now names.parameters names.arrays (nodes_of (statements_of source.now nodes.now))) result }
{
    match first_fault(source, nodes) {
        Some(at) => match place_at(source, at) {
            Err(NoMemory) => Err(Fail::Memory),
            Ok(place) => Err(Fail::Refused(Refusal::NotAffine(place))),
        },
        None => affine_scop(alloc, source, nodes, names),
    }
}

// The SCoP of statements within the rules, unless they pass a limit or the range.
fn affine_scop(alloc: Global, source: &[u8], nodes: &[Node], names: Names) -> Result<Scop, Fail>
    requires affine { fault_of (nodes_of (statements_of source.now nodes.now)) ≡ None }
    requires printable { (region : Nodes) → nodes_of (statements_of source.now nodes.now) ≡ Ok region → IsPrintableRegion names.parameters names.arrays region }
    ensures { spec.Extracts (of_region source.now names.parameters names.arrays (nodes_of (statements_of source.now nodes.now))) result }
{
    match walked(alloc, source, nodes, names) {
        Err(NoMemory) => Err(Fail::Memory),
        Ok(place) => place.finish(alloc),
    }
}

// The place behind a walk over all statements.
fn walked(
    alloc: Global,
    source: &[u8],
    nodes: &[Node],
    names: Names,
) -> Result<Extraction, NoMemory>
    ensures { IfOk result (λ place. walks.IsBehind source.now nodes.now names.parameters names.arrays place) }
{
    let mut place = Extraction::new(alloc, names.parameters, names.arrays)?;
    walk_nodes(alloc, source, nodes, &mut place)?;
    Ok(place)
}
