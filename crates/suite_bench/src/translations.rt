//! Long regions of C, which are timed from the text to the SCoP.

use region_extract::region_scop;
use std::alloc::Global;
use suite_base::{MAX_INPUT, NoMemory, Text};

const STATEMENTS: usize = 1_024;

const READS: usize = 255;

const READ: &[u8] = b"+B[100000000000000007*i+100000000000000009*N-100000000000000003]";

/// A text of 16 MiB, less a little: a loop of 1,024 assignments that each read 255 elements, with long subscripts.
pub fn long_reads(alloc: Global) -> Result<Text, NoMemory> {
    let mut text = Text::new(alloc);
    text.push_bytes(b"#pragma scop\nfor (i = 0; i < N; i++) {\n")?;
    for _ in 0..STATEMENTS {
        push_reads(&mut text)?;
    }
    text.push_bytes(b"}\n#pragma endscop\n")?;
    Ok(text)
}

// Appends an assignment of 255 reads.
fn push_reads(text: &mut Text) -> Result<(), NoMemory> {
    text.push_bytes(b"A[i] = 0")?;
    for _ in 0..READS {
        text.push_bytes(READ)?;
    }
    text.push_bytes(b";\n")
}

/// The number of statements of the SCoP of the text's region; 0 where it is refused.
pub fn translated_count(alloc: Global, text: &Text) -> usize {
    if text.len() > MAX_INPUT {
        return 0;
    }
    match region_scop(alloc, text.bytes()) {
        Ok(scop) => scop.statement_count(),
        Err(_) => 0,
    }
}
