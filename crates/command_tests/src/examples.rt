//! Each command on files that it takes.

use crate::texts::{
    DOWNWARD_LOOP_BLOCK, DOWNWARD_LOOP_SCOP, ONE_LOOP, ONE_LOOP_SCOP, STENCIL_SCOP, STENCIL_TILED,
    TILE_TWO,
};

/// The first words of a command, the texts of the files that follow them, and what it prints.
#[derive(Clone, Copy, Debug)]
pub struct Example {
    pub command: &'static [&'static str],
    pub texts: &'static [&'static [u8]],
    pub output: &'static [u8],
}

/// The demo of four loops.
pub const DEMO: Example = Example {
    command: &["demo", "4"],
    texts: &[],
    output: b"demo 4\nstatements 4\nsystems 10 kept 6 dropped 4\nclay commands 6 accepted\nchlore commands 6\n",
};

/// Every command once.
pub const EXAMPLES: [Example; 7] = [
    Example {
        command: &["clan"],
        texts: &[ONE_LOOP],
        output: ONE_LOOP_SCOP,
    },
    Example {
        command: &["scop"],
        texts: &[ONE_LOOP_SCOP],
        output: ONE_LOOP_SCOP,
    },
    Example {
        command: &["candl"],
        texts: &[DOWNWARD_LOOP_SCOP],
        output: DOWNWARD_LOOP_BLOCK,
    },
    Example {
        command: &["audit"],
        texts: &[DOWNWARD_LOOP_BLOCK],
        output: b"systems 3 kept 1 dropped 2\n",
    },
    Example {
        command: &["clay"],
        texts: &[TILE_TWO, STENCIL_SCOP],
        output: STENCIL_TILED,
    },
    Example {
        command: &["chlore"],
        texts: &[DOWNWARD_LOOP_SCOP, ONE_LOOP_SCOP],
        output: b"reverse([0], 1);\n",
    },
    DEMO,
];
