//! From a C text to the SCoP of its region.

ghost use Rattle.std.specs.Prelude.{◌≡◌, ◌≤◌, length};
ghost use Rattle.suite_base.specs.Limits.{max_input};
ghost use Rattle.region_extract.specs.Answers as spec;

use crate::regions::extract;
use c_lexer::{RegionFail, Span, find_region};
use c_parser::{Region, parse_region};
use scop_core::Scop;
use std::alloc::Global;
use suite_base::{Fail, Refusal};

/// The SCoP of the region of a text of at most `MAX_INPUT` bytes.
///
/// # Errors
/// In this order: `NoRegion`, `OpenRegion`, `SecondRegion`; what `parse_region` refuses; what `extract`
/// refuses.
pub fn region_scop(alloc: Global, text: &[u8]) -> Result<Scop, Fail>
    requires short { length text.now ≤ max_input }
    ensures { spec.Translates text.now result }
{
    match find_region(text) {
        Err(fail) => Err(Fail::Refused(refusal_for(fail))),
        Ok(span) => match parse_region(alloc, text, span) {
            Err(fail) => Err(fail),
            Ok(parsed) => extract(
                alloc,
                &Region {
                    source: text,
                    nodes: parsed.nodes,
                },
            ),
        },
    }
}

/// The refusal of a text without one region.
fn refusal_for(fail: RegionFail) -> Refusal
    ensures { result ≡ spec.refusal_for fail }
{
    match fail {
        RegionFail::NoRegion => Refusal::NoRegion,
        RegionFail::OpenRegion(line) => Refusal::OpenRegion(line),
        RegionFail::SecondRegion(line) => Refusal::SecondRegion(line),
    }
}
