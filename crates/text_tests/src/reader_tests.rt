//! Texts that are read, and the refusal of each that is not.

use scop_core::{RawStatement, ScopPieces};
use scop_reader::{read_pieces, read_scop};
use std::alloc::Global;
use std::test::Fail;
use suite_base::{Fail as Failure, NoMemory, Place, Refusal, Text, Which};

/// One loop, `for (i = 0; i < N; i++) A[i] = 0;`, line by line.
const ONE_LOOP: [&[u8]; 34] = [
    b"<OpenScop>",
    b"C",
    b"CONTEXT",
    b"0 3 0 0 0 1",
    b"1",
    b"<strings>",
    b"N",
    b"</strings>",
    b"1",
    b"3",
    b"DOMAIN",
    b"2 4 1 0 0 1",
    b"1 1 0 0",
    b"1 -1 1 -1",
    b"SCATTERING",
    b"3 7 3 1 0 1",
    b"0 -1 0 0 0 0 0",
    b"0 0 -1 0 1 0 0",
    b"0 0 0 -1 0 0 0",
    b"WRITE",
    b"2 6 2 1 0 1",
    b"0 -1 0 0 0 1",
    b"0 0 -1 1 0 0",
    b"1",
    b"<body>",
    b"1",
    b"i",
    b"A[i] = 0;",
    b"</body>",
    b"<arrays>",
    b"1",
    b"1 A",
    b"</arrays>",
    b"</OpenScop>",
];

/// One statement without iterators and parameters, which reads a scalar.
const SCALAR: [&[u8]; 15] = [
    b"<OpenScop>",
    b"C",
    b"CONTEXT",
    b"0 2 0 0 0 0",
    b"0",
    b"1",
    b"3",
    b"DOMAIN",
    b"0 2 0 0 0 0",
    b"SCATTERING",
    b"1 3 1 0 0 0",
    b"0 -1 0",
    b"READ",
    b"1 3 1 0 0 0\n0 -1 1\n0",
    b"</OpenScop>",
];

/// Appends a line.
fn push_line(text: &mut Text, line: &[u8]) -> Result<(), NoMemory> {
    text.push_bytes(line)?;
    text.push(b'\n')
}

/// A text of `lines`, of which line `n`, from 1, is `new_line`, or none where `n` is 0.
fn line_changed(
    alloc: Global,
    lines: &[&[u8]],
    n: usize,
    new_line: &[u8],
) -> Result<Text, NoMemory> {
    let mut text = Text::new(alloc);
    for k in 0..lines.len() {
        if k + 1 == n {
            push_line(&mut text, new_line)?;
        } else {
            push_line(&mut text, lines[k])?;
        }
    }
    Ok(text)
}

/// The first `n` of these lines.
fn cut(alloc: Global, lines: &[&[u8]], n: usize) -> Result<Text, NoMemory> {
    let mut text = Text::new(alloc);
    for k in 0..lines.len() {
        if k < n {
            push_line(&mut text, lines[k])?;
        }
    }
    Ok(text)
}

/// A text of `head`, `times` the line `again`, and `tail`.
fn repeated(
    alloc: Global,
    head: &[u8],
    again: &[u8],
    times: u16,
    tail: &[u8],
) -> Result<Text, NoMemory> {
    let mut text = Text::new(alloc);
    text.push_bytes(head)?;
    for _turn in 0..times {
        push_line(&mut text, again)?;
    }
    text.push_bytes(tail)?;
    Ok(text)
}

/// Lines of so many arrays with the identifiers 1, 2 and so on.
fn arrays(alloc: Global, count: u16) -> Result<Text, NoMemory> {
    let mut text = Text::new(alloc);
    for k in 0..count {
        text.push_number(k as i128 + 1)?;
        push_line(&mut text, b" A")?;
    }
    Ok(text)
}

/// Why the text is no SCoP; `None` where it is one.
fn refusal(alloc: Global, text: &Text) -> Result<Option<Refusal>, NoMemory> {
    let bytes = text.bytes();
    if bytes.len() > 1000000 {
        return Err(NoMemory);
    }
    match read_scop(alloc, bytes) {
        Ok(_) => Ok(None),
        Err(Failure::Refused(refusal)) => Ok(Some(refusal)),
        Err(Failure::Memory) => Err(NoMemory),
    }
}

/// The refusal of the one loop with line `n` changed.
fn loop_refusal(alloc: Global, n: usize, new_line: &[u8]) -> Result<Option<Refusal>, NoMemory> {
    let text = line_changed(alloc, &ONE_LOOP, n, new_line)?;
    refusal(alloc, &text)
}

/// The refusal of the scalar statement with line `n` changed.
fn scalar_refusal(alloc: Global, n: usize, new_line: &[u8]) -> Result<Option<Refusal>, NoMemory> {
    let text = line_changed(alloc, &SCALAR, n, new_line)?;
    refusal(alloc, &text)
}

#[test]
fn wrong_lines(rt: HostRuntime) -> Result<(), Fail> {
    let cases: [(usize, &[u8], u32); 45] = [
        (1, b"<OpenScop", 35),
        (2, b"C D", 2),
        (3, b"CONTEX", 3),
        (4, b"0 3 0 0 0", 4),
        (4, b"0 3 0 0 0 x", 4),
        (4, b"0 3 0 0 -1 1", 4),
        (4, b"0 4 0 0 0 1", 4),
        (4, b"0 4 1 0 0 1", 4),
        (4, b"2\n0 3 0 0 0 1", 4),
        (5, b"01", 5),
        (5, b"2", 5),
        (6, b"<string>", 6),
        (7, b"N M", 7),
        (8, b"</string>", 8),
        (9, b"-1", 9),
        (10, b"1", 10),
        (10, b"4", 24),
        (11, b"SCATTERING", 11),
        (11, b"DOMAIN\n0", 12),
        (12, b"2 5 1 0 0 2", 12),
        (12, b"2 5 1 1 0 1", 12),
        (13, b"2 1 0 0", 13),
        (13, b"1 1 0", 13),
        (13, b"1 x 0 0", 13),
        (13, b"1 x 0 170141183460469231731687303715884105728", 13),
        (16, b"3 8 3 2 0 1", 16),
        (20, b"WRITES", 20),
        (24, b"2\n<body>\n1\ni\nx\n</body>", 30),
        (25, b"<bo dy>", 25),
        (25, b"<1body>", 25),
        (25, b"body", 25),
        (26, b"2", 26),
        (27, b"</body>", 27),
        (27, b"i j", 27),
        (28, b"</body> # c", 28),
        (29, b"</body> # c", 29),
        (30, b"<arrays>\n0\n</arrays>\n<arrays>", 33),
        (31, b"-1", 31),
        (31, b"2\n01 A", 33),
        (32, b"0 A", 32),
        (32, b"1", 32),
        (32, b"1 A B", 32),
        (33, b"</arrays> # c", 33),
        (34, b"x", 34),
        (34, b"", 35),
    ];
    for (n, new_line, line) in cases {
        assert_eq!(rt;
            loop_refusal(rt.alloc(), n, new_line)?,
            Some(Refusal::BadScop(line))
        );
    }
    Ok(())
}

#[test]
fn other_refusals(rt: HostRuntime) -> Result<(), Fail> {
    let cases: [(usize, &[u8], Option<Refusal>); 22] = [
        (0, b"", None),
        (4, b"1 # parts\n0 3 0 0 0 1", None),
        (14, b"1 -1 1 170141183460469231731687303715884105727", None),
        (14, b"1 -1 1 -170141183460469231731687303715884105727", None),
        (
            4,
            b"0 3 0 0 0 170141183460469231731687303715884105728",
            Some(Refusal::NumberTooLarge(Place {
                line: 4,
                column: 11,
            })),
        ),
        (
            13,
            b"\t1  0 170141183460469231731687303715884105728 x",
            Some(Refusal::NumberTooLarge(Place {
                line: 13,
                column: 7,
            })),
        ),
        (
            14,
            b"1 -1 1 170141183460469231731687303715884105728",
            Some(Refusal::NumberTooLarge(Place {
                line: 14,
                column: 8,
            })),
        ),
        (
            14,
            b"1 -1 1 -170141183460469231731687303715884105728",
            Some(Refusal::NumberTooLarge(Place {
                line: 14,
                column: 8,
            })),
        ),
        (4, b"300 3 0 0 0 1", Some(Refusal::Limit(Which::Rows, 0))),
        (
            4,
            b"0 19 0 0 0 17",
            Some(Refusal::Limit(Which::Parameters, 0)),
        ),
        (9, b"1025", Some(Refusal::Limit(Which::Statements, 0))),
        (10, b"259", Some(Refusal::Limit(Which::Accesses, 1))),
        (11, b"DOMAIN\n65", Some(Refusal::Limit(Which::Parts, 1))),
        (
            12,
            b"1000000000 4 1 0 0 1",
            Some(Refusal::Limit(Which::Rows, 1)),
        ),
        (
            12,
            b"2 16 13 0 0 1",
            Some(Refusal::Limit(Which::Iterators, 1)),
        ),
        (12, b"2 29 1 0 25 1", Some(Refusal::Limit(Which::Locals, 1))),
        (16, b"3 54 50 1 0 1", Some(Refusal::Limit(Which::Levels, 1))),
        (
            21,
            b"2 18 14 1 0 1",
            Some(Refusal::Limit(Which::Subscripts, 1)),
        ),
        (31, b"4097", Some(Refusal::Limit(Which::Arrays, 0))),
        (
            34,
            b"</OpenScop>\nx\n<OpenScop> # again",
            Some(Refusal::SecondScop(36)),
        ),
        (19, b"0 0 -1 0 1 0 0", Some(Refusal::NotSolved(1))),
        (20, b"READ", None),
    ];
    for (n, new_line, refusal) in cases {
        assert_eq!(rt; loop_refusal(rt.alloc(), n, new_line)?, refusal);
    }
    assert_eq!(rt; scalar_refusal(rt.alloc(), 0, b"")?, None);
    let clash = b"2\n2\nDOMAIN\n0 2 0 0 0 0\nSCATTERING\n1 3 1 0 0 0\n0 -1 0\n0";
    assert_eq!(rt;
        scalar_refusal(rt.alloc(), 6, clash)?,
        Some(Refusal::BetaClash(1, 2))
    );
    for n in 0..ONE_LOOP.len() {
        let text = cut(rt.alloc(), &ONE_LOOP, n)?;
        assert_eq!(rt;
            refusal(rt.alloc(), &text)?,
            Some(Refusal::BadScop(n as u32 + 1))
        );
    }
    Ok(())
}

/// The lines of a statement of the scalar, but for its accesses.
const BARE: &[u8] = b"2\nDOMAIN\n0 2 0 0 0 0\nSCATTERING\n0 3 1 0 0 0\n0";

/// Pieces that keep each limit at its number, as changes of the scalar statement's lines.
fn at_limits(alloc: Global) -> Result<[(usize, Text); 9], NoMemory> {
    let rows = repeated(alloc, b"256 2 0 0 0 0\n", b"0 0", 256, b"")?;
    let parameters = repeated(alloc, b"0 18 0 0 0 16\n0\n0\n</OpenScop>", b"", 0, b"")?;
    let statements = repeated(alloc, b"1024\n", BARE, 1024, b"</OpenScop>")?;
    let accesses = repeated(
        alloc,
        b"258\nDOMAIN\n0 2 0 0 0 0\nSCATTERING\n0 3 1 0 0 0\n",
        b"READ\n0 3 1 0 0 0",
        256,
        b"0\n</OpenScop>",
    )?;
    let parts = repeated(alloc, b"DOMAIN\n64\n", b"0 2 0 0 0 0", 63, b"")?;
    let iterators = repeated(
        alloc,
        b"0 14 12 0 0 0\nSCATTERING\n0 15 1 12 0 0\nREAD\n0 15 1 12 0 0\n0\n</OpenScop>",
        b"",
        0,
        b"",
    )?;
    let locals = repeated(alloc, b"0 26 0 0 24 0", b"", 0, b"")?;
    let levels = repeated(
        alloc,
        b"0 51 49 0 0 0\n",
        b"READ\n0 15 13 0 0 0\n0",
        1,
        b"</OpenScop>",
    )?;
    let listed = arrays(alloc, 4096)?;
    let arrays = repeated(
        alloc,
        b"<arrays>\n4096\n",
        listed.bytes(),
        1,
        b"</arrays>\n</OpenScop>",
    )?;
    Ok([
        (4, rows),
        (4, parameters),
        (6, statements),
        (7, accesses),
        (8, parts),
        (9, iterators),
        (9, locals),
        (11, levels),
        (15, arrays),
    ])
}

/// Whether a text has pieces.
fn has_pieces(alloc: Global, text: &Text) -> Result<bool, NoMemory> {
    let bytes = text.bytes();
    if bytes.len() > 1000000 {
        return Err(NoMemory);
    }
    match read_pieces(alloc, bytes) {
        Ok(_) => Ok(true),
        Err(Failure::Refused(_)) => Ok(false),
        Err(Failure::Memory) => Err(NoMemory),
    }
}

#[test]
fn limits_at_their_numbers(rt: HostRuntime) -> Result<(), Fail> {
    for (n, new_line) in at_limits(rt.alloc())? {
        let text = line_changed(rt.alloc(), &SCALAR, n, new_line.bytes())?;
        assert!(rt; has_pieces(rt.alloc(), &text)?, "line {n}");
    }
    Ok(())
}

/// A text with each feature of the grammar.
const FEATURES: [&[u8]; 72] = [
    b"before the text <OpenScop>",
    b"# a comment",
    b"",
    b"  <OpenScop> # opened",
    b"Fortran",
    b"CONTEXT",
    b"1 # part",
    b"1 4 0 0 0 2",
    b"1 1 0 -1",
    b"1",
    b"<strings>",
    b"N M",
    b"</strings>",
    b"2",
    b"4",
    b"DOMAIN",
    b"2",
    b"1 5 1 0 0 2",
    b"1 1 0 0 0",
    b"1 6 1 0 1 2",
    b"0 1 -2 0 0 0",
    b"SCATTERING",
    b"7 10 3 1 2 2",
    b"0 -1 0 0 0 0 0 0 0 0",
    b"0 0 -1 0 0 0 1 0 0 0",
    b"0 0 0 -1 0 0 0 0 0 0",
    b"1 0 0 0 1 -4 0 0 0 0",
    b"1 0 0 0 -1 4 0 0 0 3",
    b"1 0 0 0 0 1 -2 0 0 0",
    b"1 0 0 0 0 -1 2 0 0 1",
    b"WRITE",
    b"1 6 1 1 0 2",
    b"0 -1 0 0 0 1",
    b"MAY_WRITE",
    b"2 7 2 1 0 2",
    b"0 -1 0 0 0 0 2",
    b"0 0 -1 1 0 0 0",
    b"2",
    b"<_x9>",
    b"anything # kept\r",
    b"  </_x9",
    b"\t</_x9> ",
    b"<body>",
    b"1",
    b"i",
    b"  A[i] = s;  # text",
    b"</body>\r",
    b"2",
    b"DOMAIN",
    b"0 4 0 0 0 2",
    b"SCATTERING",
    b"1 5 1 0 0 2",
    b"0 -1 0 0 1",
    b"1",
    b"<arrays>",
    b"</arrays>",
    b"<body>",
    b"</body>",
    b"<OpenScop>",
    b"</OpenScop>",
    b"<arrays>",
    b"2",
    b"007 A",
    b"3\tB # name",
    b"</arrays>",
    b"</OpenScop>",
    b"<arrays>",
    b"2",
    b"",
    b"",
    b"",
    b"behind",
];

/// The counts of what was read: bytes of the language, parameters, rows of the context, statements,
/// arrays, extensions.
fn counts(pieces: &ScopPieces) -> [usize; 6] {
    let parameters = match &pieces.parameters {
        None => 0,
        Some(names) => names.len(),
    };
    let arrays = match &pieces.arrays {
        None => 0,
        Some(arrays) => arrays.len(),
    };
    [
        pieces.language.len(),
        parameters,
        pieces.context.row_count(),
        pieces.statements.len(),
        arrays,
        pieces.extensions.len(),
    ]
}

/// The counts of what was read of a statement: parts of its domain and of its scattering, accesses,
/// iterators and bytes of its body, extensions.
fn statement_counts(raw: &RawStatement) -> [usize; 6] {
    let (iterators, bytes) = match &raw.body {
        None => (0, 0),
        Some(body) => (body.iterators.len(), body.text.len()),
    };
    [
        raw.domain.len(),
        raw.scattering.len(),
        raw.accesses.len(),
        iterators,
        bytes,
        raw.extensions.len(),
    ]
}

/// The pieces of a text; no memory stands in for a refusal.
fn pieces_of(alloc: Global, text: &Text) -> Result<ScopPieces, NoMemory> {
    let bytes = text.bytes();
    if bytes.len() > 1000000 {
        return Err(NoMemory);
    }
    match read_pieces(alloc, bytes) {
        Ok(pieces) => Ok(pieces),
        Err(_) => Err(NoMemory),
    }
}

/// The lines with a carriage return at the end of each, an aligned column, and a comment and an empty
/// line before it.
fn dressed(alloc: Global, lines: &[&[u8]]) -> Result<Text, NoMemory> {
    let mut text = Text::new(alloc);
    for line in lines {
        text.push_bytes(b"# comment\n\t\r\n  ")?;
        text.push_bytes(*line)?;
        text.push_bytes(b"\r\n")?;
    }
    Ok(text)
}

/// The first line of the first extension of a statement; empty where there is none.
fn kept_line(raw: &RawStatement) -> &[u8] {
    match raw.extensions.as_slice() {
        [first, ..] => match first.lines.as_slice() {
            [line, ..] => line.bytes(),
            [] => &[],
        },
        [] => &[],
    }
}

#[test]
fn each_feature(rt: HostRuntime) -> Result<(), Fail> {
    let text = line_changed(rt.alloc(), &FEATURES, 0, b"")?;
    assert_eq!(rt; refusal(rt.alloc(), &text)?, None);
    let pieces = pieces_of(rt.alloc(), &text)?;
    assert_eq!(rt; counts(&pieces), [7, 2, 1, 2, 2, 2]);
    let raws = pieces.statements.as_slice();
    assert_eq!(rt; raws.len(), 2);
    assert_eq!(rt; statement_counts(&raws[0]), [2, 1, 2, 1, 9, 1]);
    assert_eq!(rt; statement_counts(&raws[1]), [1, 1, 0, 0, 0, 1]);
    assert_eq!(rt; kept_line(&raws[0]), b"anything # kept\r".as_slice());
    let text = dressed(rt.alloc(), &ONE_LOOP)?;
    assert_eq!(rt; refusal(rt.alloc(), &text)?, None);
    let pieces = pieces_of(rt.alloc(), &text)?;
    assert_eq!(rt; counts(&pieces), [1, 1, 0, 1, 1, 0]);
    Ok(())
}
