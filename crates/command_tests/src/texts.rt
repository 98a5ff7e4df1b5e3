//! The texts that the tests run on. Each is a file of examples/.

/// A C region: one loop that writes zeros.
pub const ONE_LOOP: &[u8] =
    b"#pragma scop\nfor (i = 0; i < N; i++)\n  A[i] = 0;\n#pragma endscop\n";

/// Its SCoP, in 34 lines.
pub const ONE_LOOP_SCOP: &[u8] =
    b"<OpenScop>\nC\nCONTEXT\n0 3 0 0 0 1\n1\n<strings>\nN\n</strings>\n1\n3\nDOMAIN\n2 4 1 0 0 1\n1 1 0 0\n1 -1 1 -1\nSCATTERING\n3 7 3 1 0 1\n0 -1 0 0 0 0 0\n0 0 -1 0 1 0 0\n0 0 0 -1 0 0 0\nWRITE\n2 6 2 1 0 1\n0 -1 0 0 0 1\n0 0 -1 1 0 0\n1\n<body>\n1\ni\nA[i] = 0;\n</body>\n<arrays>\n1\n1 A\n</arrays>\n</OpenScop>\n";

/// The SCoP of a loop that counts down, `A[i] = A[i+1];`.
pub const DOWNWARD_LOOP_SCOP: &[u8] =
    b"<OpenScop>\nC\nCONTEXT\n0 3 0 0 0 1\n1\n<strings>\nN\n</strings>\n1\n4\nDOMAIN\n2 4 1 0 0 1\n1 -1 1 0\n1 1 0 0\nSCATTERING\n3 7 3 1 0 1\n0 -1 0 0 0 0 0\n0 0 -1 0 -1 0 0\n0 0 0 -1 0 0 0\nREAD\n2 6 2 1 0 1\n0 -1 0 0 0 1\n0 0 -1 1 0 1\nWRITE\n2 6 2 1 0 1\n0 -1 0 0 0 1\n0 0 -1 1 0 0\n1\n<body>\n1\ni\nA[i] = A[i+1];\n</body>\n<arrays>\n1\n1 A\n</arrays>\n</OpenScop>\n";

/// The same with its block, in 53 lines.
pub const DOWNWARD_LOOP_BLOCK: &[u8] =
    b"<OpenScop>\nC\nCONTEXT\n0 3 0 0 0 1\n1\n<strings>\nN\n</strings>\n1\n4\nDOMAIN\n2 4 1 0 0 1\n1 -1 1 0\n1 1 0 0\nSCATTERING\n3 7 3 1 0 1\n0 -1 0 0 0 0 0\n0 0 -1 0 -1 0 0\n0 0 0 -1 0 0 0\nREAD\n2 6 2 1 0 1\n0 -1 0 0 0 1\n0 0 -1 1 0 1\nWRITE\n2 6 2 1 0 1\n0 -1 0 0 0 1\n0 0 -1 1 0 0\n1\n<body>\n1\ni\nA[i] = A[i+1];\n</body>\n<arrays>\n1\n1 A\n</arrays>\n<suite_dependences>\n3\nWAR 1 1 1 2 1 1 1 dropped\n0 0 0 0 -1 1\nRAW 1 1 2 1 1 1 1 kept\n6 5 1 1 0 1\n1 -1 0 1 0\n1 1 0 0 0\n1 0 -1 1 0\n1 0 1 0 0\n0 1 -1 0 -1\n1 1 -1 0 -1\nWAW 1 1 2 2 1 1 1 dropped\n0 0 0 0 -1 1\n</suite_dependences>\n</OpenScop>\n";

/// The SCoP of two loops round `A[i][j] = A[i-1][j] + A[i][j-1];`.
pub const STENCIL_SCOP: &[u8] =
    b"<OpenScop>\nC\nCONTEXT\n0 3 0 0 0 1\n1\n<strings>\nN\n</strings>\n1\n5\nDOMAIN\n4 5 2 0 0 1\n1 1 0 0 -1\n1 -1 0 1 -1\n1 0 1 0 -1\n1 0 -1 1 -1\nSCATTERING\n5 10 5 2 0 1\n0 -1 0 0 0 0 0 0 0 0\n0 0 -1 0 0 0 1 0 0 0\n0 0 0 -1 0 0 0 0 0 0\n0 0 0 0 -1 0 0 1 0 0\n0 0 0 0 0 -1 0 0 0 0\nREAD\n3 8 3 2 0 1\n0 -1 0 0 0 0 0 1\n0 0 -1 0 1 0 0 -1\n0 0 0 -1 0 1 0 0\nREAD\n3 8 3 2 0 1\n0 -1 0 0 0 0 0 1\n0 0 -1 0 1 0 0 0\n0 0 0 -1 0 1 0 -1\nWRITE\n3 8 3 2 0 1\n0 -1 0 0 0 0 0 1\n0 0 -1 0 1 0 0 0\n0 0 0 -1 0 1 0 0\n1\n<body>\n2\ni j\nA[i][j] = A[i-1][j] + A[i][j-1];\n</body>\n<arrays>\n1\n1 A\n</arrays>\n</OpenScop>\n";

/// The same with both loops tiled.
pub const STENCIL_TILED: &[u8] =
    b"<OpenScop>\nC\nCONTEXT\n0 3 0 0 0 1\n1\n<strings>\nN\n</strings>\n1\n5\nDOMAIN\n4 5 2 0 0 1\n1 1 0 0 -1\n1 -1 0 1 -1\n1 0 1 0 -1\n1 0 -1 1 -1\nSCATTERING\n13 16 9 2 2 1\n0 -1 0 0 0 0 0 0 0 0 0 0 0 0 0 0\n0 0 -1 0 0 0 0 0 0 0 0 0 1 0 0 0\n0 0 0 -1 0 0 0 0 0 0 0 0 0 0 0 0\n0 0 0 0 -1 0 0 0 0 0 0 0 0 1 0 0\n0 0 0 0 0 -1 0 0 0 0 0 0 0 0 0 0\n0 0 0 0 0 0 -1 0 0 0 1 0 0 0 0 0\n0 0 0 0 0 0 0 -1 0 0 0 0 0 0 0 0\n0 0 0 0 0 0 0 0 -1 0 0 1 0 0 0 0\n0 0 0 0 0 0 0 0 0 -1 0 0 0 0 0 0\n1 0 0 0 0 0 0 0 0 0 1 0 -32 0 0 0\n1 0 0 0 0 0 0 0 0 0 -1 0 32 0 0 31\n1 0 0 0 0 0 0 0 0 0 0 1 0 -32 0 0\n1 0 0 0 0 0 0 0 0 0 0 -1 0 32 0 31\nREAD\n3 8 3 2 0 1\n0 -1 0 0 0 0 0 1\n0 0 -1 0 1 0 0 -1\n0 0 0 -1 0 1 0 0\nREAD\n3 8 3 2 0 1\n0 -1 0 0 0 0 0 1\n0 0 -1 0 1 0 0 0\n0 0 0 -1 0 1 0 -1\nWRITE\n3 8 3 2 0 1\n0 -1 0 0 0 0 0 1\n0 0 -1 0 1 0 0 0\n0 0 0 -1 0 1 0 0\n1\n<body>\n2\ni j\nA[i][j] = A[i-1][j] + A[i][j-1];\n</body>\n<arrays>\n1\n1 A\n</arrays>\n</OpenScop>\n";

/// The script that tiles both loops, in one line.
pub const TILE_TWO: &[u8] = b"tile([0], 1, 32, 1); tile([0], 3, 32, 2);\n";
