//! Reading a file by its name to its end, up to the limit of one input.

ghost use Rattle.std.specs.Prelude.{◌≡◌, ℕ, ◌+◌, ◌-◌, ◌<◌, ◌≤◌, ◌⊎◌, true, false, [], ◌++◌, length, List, IfOk, IfErr, OnOk, OnErr, IfSome, Some};
ghost use Rattle.suite_base.specs.Limits.{max_input};
ghost use Rattle.suite_base.specs.Outside.{HasFault, IsMissing, Took, TookUpTo, Under};

use crate::limits::MAX_INPUT;
use crate::outside::Files;
use crate::reading::{PIECE, ReadFail};
use crate::texts::Text;
use std::alloc::Global;

/// Opens the file `name`, reads it to its end, and closes it whatever comes. `Fault` comes only by a
/// counted fault of `files`, or where they hold no file of this name; `TooLong` where the file has
/// more bytes than [`MAX_INPUT`], of which one more is taken.
pub fn read_file<F: Files>(alloc: Global, files: &mut F, name: &str) -> Result<Text, ReadFail>
    ensures whole { IfOk result (λ text. Under (F.held files.old) name.now (λ bytes. text ≡ bytes)) }
    ensures short { IfOk result (λ text. length text ≤ max_input) }
    ensures taken { OnErr result ((F.left files.new ≡ F.left files.old) ⊎ Under (F.held files.old) name.now (λ bytes. TookUpTo (max_input + 1) (Some bytes) (F.left files.new))) }
    ensures fault { IfErr result (λ fail. fail ≡ ReadFail.Fault → HasFault (F.faults files.old) (F.faults files.new) ⊎ IsMissing (F.held files.old) name.now) }
    ensures long { IfErr result (λ fail. fail ≡ ReadFail.TooLong → Under (F.held files.old) name.now (λ bytes. max_input < length bytes)) }
    ensures held { F.held files.new ≡ F.held files.old }
    ensures closed { F.is_open files.new ≡ false }
    ensures grows { F.faults files.old ≤ F.faults files.new }
{
    files.open(name)?;
    let read = read_to_end(alloc, files);
    files.close();
    read
}

// Reads the open file to its end and answers its bytes.
fn read_to_end<F: Files>(alloc: Global, files: &mut F) -> Result<Text, ReadFail>
    requires { F.is_open files.old ≡ true }
    ensures took { IfOk result (λ text. Took (F.left files.old) text (F.left files.new)) }
    ensures whole { IfOk result (λ text. IfSome (F.left files.old) (λ bytes. text ≡ bytes)) }
    ensures short { IfOk result (λ text. length text ≤ max_input) }
    ensures taken { OnErr result (TookUpTo (max_input + 1) (F.left files.old) (F.left files.new)) }
    ensures fault { IfErr result (λ fail. fail ≡ ReadFail.Fault → HasFault (F.faults files.old) (F.faults files.new)) }
    ensures long { IfErr result (λ fail. fail ≡ ReadFail.TooLong → IfSome (F.left files.old) (λ bytes. max_input < length bytes)) }
    ensures stays { F.is_open files.new ≡ true }
    ensures held { F.held files.new ≡ F.held files.old }
    ensures grows { F.faults files.old ≤ F.faults files.new }
{
    let mut text = Text::new(alloc);
    while text.len() <= MAX_INPUT {
        if read_piece(files, &mut text)? == 0 {
            return Ok(text);
        }
    }
    Err(ReadFail::TooLong)
}

// Appends one piece of the open file to `text`, and answers its length: 0 only at the end.
fn read_piece<F: Files>(files: &mut F, text: &mut Text) -> Result<usize, ReadFail>
    requires opened { F.is_open files.old ≡ true }
    requires room { length text.old ≤ max_input }
    ensures within { OnOk result (length text.new ≤ max_input + 1) }
    ensures took { IfOk result (λ n. (piece : List ℕ) × (length piece ≡ n) × (text.new ≡ text.old ++ piece) × Took (F.left files.old) piece (F.left files.new)) }
    ensures ends { IfOk result (λ n. n ≡ 0 → IfSome (F.left files.old) (λ bytes. bytes ≡ [])) }
    ensures taken { OnErr result (TookUpTo (max_input + 1 - length text.old) (F.left files.old) (F.left files.new)) }
    ensures fault { IfErr result (λ fail. fail ≡ ReadFail.Fault → HasFault (F.faults files.old) (F.faults files.new)) }
    ensures small { IfErr result (λ fail. ¬ (fail ≡ ReadFail.TooLong)) }
    ensures stays { F.is_open files.new ≡ true }
    ensures held { F.held files.new ≡ F.held files.old }
    ensures grows { F.faults files.old ≤ F.faults files.new }
{
    let mut buffer = [0; PIECE];
    let room = (MAX_INPUT + 1 - text.len()).min(PIECE);
    let n = files.read(&mut buffer[..room])?;
    text.push_bytes(&buffer[..n])?;
    Ok(n)
}
