//! Reading a source to its end, up to the limit of one input.

ghost use Rattle.std.specs.Prelude.{◌≡◌, ℕ, ◌+◌, ◌-◌, ◌<◌, ◌≤◌, [], ◌++◌, length, List, IfOk, IfErr, OnOk, OnErr, IfSome};
ghost use Rattle.suite_base.specs.Limits.{max_input};
ghost use Rattle.suite_base.specs.Outside.{HasFault, Took, TookUpTo};

use crate::limits::MAX_INPUT;
use crate::memory::NoMemory;
use crate::outside::{Failed, Source};
use crate::texts::Text;
use std::alloc::Global;

/// The most bytes that one call of a source is asked for.
pub const PIECE: usize = 16_384;

/// What keeps an input from being read: want of memory, a fault of the source, or more bytes than
/// [`MAX_INPUT`].
#[derive(Clone, Copy, Debug, PartialEq, Eq)]
pub enum ReadFail {
    Memory,
    Fault,
    TooLong,
}

impl From<NoMemory> for ReadFail {
    ghost use Rattle.std.specs.Prelude.{◌≡◌};
    ghost use Rattle.suite_base.specs.declared.reading.ReadFail.{ReadFail};

    ghost from_gives = { λ _ fail. fail ≡ ReadFail.Memory };

    fn from(_want: NoMemory) -> ReadFail {
        ReadFail::Memory
    }
}

impl From<Failed> for ReadFail {
    ghost use Rattle.std.specs.Prelude.{◌≡◌};
    ghost use Rattle.suite_base.specs.declared.reading.ReadFail.{ReadFail};

    ghost from_gives = { λ _ fail. fail ≡ ReadFail.Fault };

    fn from(_failed: Failed) -> ReadFail {
        ReadFail::Fault
    }
}

/// Reads `source` to its end and answers its bytes. `Fault` comes only by a counted fault of the
/// source; `TooLong` where there are more bytes than [`MAX_INPUT`], of which one more is taken.
pub fn read_all<S: Source>(alloc: Global, source: &mut S) -> Result<Text, ReadFail>
    ensures took { IfOk result (λ text. Took (S.left source.old) text (S.left source.new)) }
    ensures whole { IfOk result (λ text. IfSome (S.left source.old) (λ bytes. text ≡ bytes)) }
    ensures emptied { OnOk result (IfSome (S.left source.new) (λ bytes. bytes ≡ [])) }
    ensures short { IfOk result (λ text. length text ≤ max_input) }
    ensures taken { OnErr result (TookUpTo (max_input + 1) (S.left source.old) (S.left source.new)) }
    ensures fault { IfErr result (λ fail. fail ≡ ReadFail.Fault → HasFault (S.faults source.old) (S.faults source.new)) }
    ensures long { IfErr result (λ fail. fail ≡ ReadFail.TooLong → IfSome (S.left source.old) (λ bytes. max_input < length bytes)) }
    ensures grows { S.faults source.old ≤ S.faults source.new }
{
    let mut text = Text::new(alloc);
    while text.len() <= MAX_INPUT {
        if read_piece(source, &mut text)? == 0 {
            return Ok(text);
        }
    }
    Err(ReadFail::TooLong)
}

// Appends one piece of `source` to `text`, and answers its length: 0 only at the end.
fn read_piece<S: Source>(source: &mut S, text: &mut Text) -> Result<usize, ReadFail>
    requires { length text.old ≤ max_input }
    ensures within { OnOk result (length text.new ≤ max_input + 1) }
    ensures took { IfOk result (λ n. (piece : List ℕ) × (length piece ≡ n) × (text.new ≡ text.old ++ piece) × Took (S.left source.old) piece (S.left source.new)) }
    ensures ends { IfOk result (λ n. n ≡ 0 → IfSome (S.left source.old) (λ bytes. bytes ≡ [])) }
    ensures taken { OnErr result (TookUpTo (max_input + 1 - length text.old) (S.left source.old) (S.left source.new)) }
    ensures fault { IfErr result (λ fail. fail ≡ ReadFail.Fault → HasFault (S.faults source.old) (S.faults source.new)) }
    ensures small { IfErr result (λ fail. ¬ (fail ≡ ReadFail.TooLong)) }
    ensures grows { S.faults source.old ≤ S.faults source.new }
{
    let mut buffer = [0; PIECE];
    let room = (MAX_INPUT + 1 - text.len()).min(PIECE);
    let n = source.read(&mut buffer[..room])?;
    text.push_bytes(&buffer[..n])?;
    Ok(n)
}
