//! Finds the region of a text, which stands between two pragma lines.

ghost use Rattle.std.specs.Prelude.{◌≡◌, ◌<◌, ◌≤◌, ◌+◌, ◌-◌, ◌^◌, Some, None, length, IfOk, IfSome, IfNone};
ghost use Rattle.suite_base.specs.Lines.{lines};
ghost use Rattle.c_lexer.specs.Pragmas as pragma;
ghost use Rattle.suite_base.specs.Places.{place_at};
ghost use Rattle.c_lexer.specs.Regions as spec;

use crate::pragmas::{Pragma, is_pragma};
use suite_base::{Lines, Place};

/// A part of a text: the bytes from `from` up to `to`, where `first` is the place of byte `from`.
#[derive(Clone, Copy, Debug, PartialEq, Eq)]
pub struct Span {
    pub from: usize,
    pub to: usize,
    pub first: Place,
}

/// Why a text has no region.
#[derive(Clone, Copy, Debug, PartialEq, Eq)]
pub enum RegionFail {
    /// No line is a `scop` pragma line.
    NoRegion,
    /// The first `scop` line, of this number, has no `endscop` line after it.
    OpenRegion(u32),
    /// Another `scop` line stands at this line.
    SecondRegion(u32),
}

/// The region of a C text: the lines between its first `scop` line and the first `endscop` line
/// after it. The text has fewer than 2^32 - 1 bytes. Pragma lines count wherever they stand, in
/// comments too.
///
/// The refusals are checked in the order in which they are declared. No memory is taken.
pub fn find_region(bytes: &[u8]) -> Result<Span, RegionFail>
    requires { length bytes.now < 2 ^ 32 - 1 }
    ensures value { result ≡ spec.region_of bytes.now }
    ensures within { IfOk result (λ span. (span.from ≤ span.to) × (span.to ≤ length bytes.now)) }
    ensures placed { IfOk result (λ span. span.first ≡ place_at bytes.now span.from) }
{
    let Some(scop) = first_line(&Lines::new(bytes), Pragma::Scop) else {
        return Err(RegionFail::NoRegion);
    };
    let Some(endscop) = first_line(&scop.rest, Pragma::Endscop) else {
        return Err(RegionFail::OpenRegion(scop.lines_before + 1));
    };
    if let Some(second) = first_line(&scop.rest, Pragma::Scop) {
        return Err(RegionFail::SecondRegion(scop.lines_before + second.lines_before + 2));
    }
    let first = Place {
        line: scop.lines_before + 2,
        column: 1,
    };
    Ok(Span {
        from: scop.past,
        to: scop.past + endscop.at,
        first,
    })
}

// Where a line stands among others.
#[derive(Drop)]
struct Standing<'a> {
    lines_before: u32,
    at: usize,
    past: usize,
    rest: Lines<'a>,
}

// The first line of `among` that is this pragma.
fn first_line<'a>(among: &Lines<'a>, wanted: Pragma) -> Option<Standing<'a>>
    requires { length among.now < 2 ^ 32 - 1 }
    ensures none { IfNone result (spec.first_line (pragma.is_pragma wanted) (lines among.now) ≡ None) }
    ensures found { IfSome result (λ s. spec.first_line (pragma.is_pragma wanted) (lines among.now) ≡ Some (spec.seen s)) }
{
    let mut rest = among.copy();
    let mut lines_before = 0;
    let mut at = 0;
    while let Some(line) = rest.next() {
        let past = at + line.len() + 1;
        if is_pragma(line, wanted) {
            return Some(Standing {
                lines_before,
                at,
                past,
                rest,
            });
        }
        lines_before += 1;
        at = past;
    }
    None
}
