//! What the texts of timed SCoPs have in common.

use itoa::Buffer;
use scop_core::Scop;
use scop_reader::read_scop;
use std::alloc::Global;
use suite_base::{MAX_INPUT, NoMemory, Text};

/// What a text ends with.
pub const END: &[u8] = b"</OpenScop>\n";

/// The text of a SCoP without parameters up to its statements, of which there are `count`.
pub fn head(alloc: Global, count: u32) -> Result<Text, NoMemory> {
    let mut digits = Buffer::new();
    let mut text = Text::new(alloc);
    text.push_bytes(b"<OpenScop>\nC\nCONTEXT\n0 2 0 0 0 0\n0\n")?;
    text.push_bytes(digits.format(count).as_bytes())?;
    text.push(b'\n')?;
    Ok(text)
}

/// The SCoP of this text; `None` where it is refused.
pub fn scop_in(alloc: Global, text: &[u8]) -> Option<Scop> {
    if text.len() > MAX_INPUT {
        return None;
    }
    read_scop(alloc, text).ok()
}
