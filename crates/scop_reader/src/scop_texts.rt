//! A text read as a SCoP.

ghost use Rattle.std.specs.Prelude.{◌≡◌, ◌<◌, ◌-◌, ◌^◌, None, length, IfOk, OnOk, IfErr};
ghost use Rattle.scop_core.specs.Assembly.{HasCause};
ghost use Rattle.scop_reader.specs.Texts.{IsScopText, GivesScop, fault, pieces_in};

use crate::scop_rules::read_pieces;
use scop_core::Scop;
use std::alloc::Global;
use suite_base::Fail;

/// The SCoP of an OpenScop text (`docs/FORMATS.md`), which has fewer than 2^32 - 1 bytes. A refusal is
/// the first fault of the text: of its lines in order (`BadScop`, `NumberTooLarge`, `Limit`), of a
/// second SCoP behind it (`SecondScop`), or of the pieces (`Limit`, `NotSolved`, `BetaClash`).
pub fn read_scop(alloc: Global, bytes: &[u8]) -> Result<Scop, Fail>
    requires { length bytes.now < 2 ^ 32 - 1 }
    ensures text { IfOk result (IsScopText bytes.now) }
    ensures scop { IfOk result (GivesScop (pieces_in bytes.now)) }
    ensures none { OnOk result (fault bytes.now ≡ None) }
    ensures cause { IfErr result (HasCause (fault bytes.now)) }
{
    let pieces = read_pieces(alloc, bytes)?;
    Scop::assemble(alloc, pieces)
}
