//! The parser's entry: the span of a region to its statements.

ghost use Rattle.std.specs.Prelude.{◌≡◌, ◌<◌, ◌≤◌, ◌-◌, ◌^◌, length, IfOk};
ghost use Rattle.suite_base.specs.Places.{place_at};
ghost use Rattle.c_parser.specs.Regions as spec;

use crate::statements::region;
use crate::tree::Region;
use c_lexer::{Lexer, Span, Tokens};
use std::alloc::Global;
use suite_base::Fail;

/// The tree of the region at `span`, beside its source. The text has fewer than 2^32 - 1 bytes, the
/// span lies in it, and `span.first` is the place of byte `span.from`.
///
/// The answer is a tree exactly where the span's tokens are derived to it by the grammar with at most
/// `MAX_NESTS` nests and `MAX_LOOPS` loops open at once, unless memory is wanting. Nests are brackets of
/// any kind, the branches of an `if`, operands of unary signs, and what follows `?`.
///
/// A refusal has the place of the first token with which the rules do not go on; before it stand tokens of
/// the grammar alone. `BadToken`: none begins there. `NumberTooLarge`: an integer above 2^127 - 1.
/// `BadSyntax`: no text that begins with the tokens up to and with this one has a tree, whatever the
/// depths; at the region's end this is the region itself. `TooDeep`: no such text has a tree within the
/// depths, and the token is a `for` behind `MAX_LOOPS` others, or `MAX_NESTS` tokens that open nests stand
/// before it.
pub fn parse_region<'a>(alloc: Global, bytes: &'a [u8], span: Span) -> Result<Region<'a>, Fail>
    requires small { length bytes.now < 2 ^ 32 - 1 }
    requires order { span.from ≤ span.to }
    requires within { span.to ≤ length bytes.now }
    requires placed { span.first ≡ place_at bytes.now span.from }
    ensures derived { IfOk result (λ found. spec.IsRegion bytes.now span found.nodes) }
    ensures complete { spec.Completes bytes.now span result }
    ensures cause { spec.HasReason bytes.now span result }
{
    read(alloc, bytes, span)
}

// The same by the rules, each of which looks one token ahead.
fn read<'a>(alloc: Global, bytes: &'a [u8], span: Span) -> Result<Region<'a>, Fail>
    requires small { length bytes.now < 2 ^ 32 - 1 }
    requires order { span.from ≤ span.to }
    requires within { span.to ≤ length bytes.now }
    requires placed { span.first ≡ place_at bytes.now span.from }
    ensures { spec.Parses bytes.now span result }
{
    let mut tokens = Tokens::new(Lexer::new(bytes, span));
    match region(alloc, &mut tokens) {
        Ok(nodes) => Ok(Region {
            source: bytes,
            nodes,
        }),
        Err(stop) => Err(stop.fail()),
    }
}
