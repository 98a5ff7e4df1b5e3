//! Regions that are read, and the refusal of each that is not.

ghost use Rattle.std.specs.Prelude.{◌≡◌, ◌≤◌, length};
ghost use Rattle.suite_base.specs.Places.{place_at};

use c_lexer::Span;
use c_parser::{Node, parse_region};
use std::alloc::AllocError;
use std::test::Fail as Failed;
use suite_base::{Fail, Place, Refusal};

/// What a text is read to: the number of its statements, or the letter of the refusal and its place.
#[derive(Clone, Copy, Debug, PartialEq, Eq)]
enum Outcome {
    Nodes(usize),
    Token(u32, u32),
    Number(u32, u32),
    Syntax(u32, u32),
    Deep(u32, u32),
    Memory,
}

fn refused(refusal: Refusal) -> Outcome {
    match refusal {
        Refusal::BadToken(place) => Outcome::Token(place.line, place.column),
        Refusal::NumberTooLarge(place) => Outcome::Number(place.line, place.column),
        Refusal::BadSyntax(place) => Outcome::Syntax(place.line, place.column),
        Refusal::TooDeep(place) => Outcome::Deep(place.line, place.column),
        _ => Outcome::Memory,
    }
}

fn read(alloc: std::alloc::Global, text: &[u8]) -> Outcome {
    if text.len() > 20_000_000 {
        return Outcome::Memory;
    }
    match parse_region(alloc, text, whole(text)) {
        Ok(region) => Outcome::Nodes(region.nodes.len()),
        Err(Fail::Memory) => Outcome::Memory,
        Err(Fail::Refused(refusal)) => refused(refusal),
    }
}

#[test]
fn statements(rt: HostRuntime) {
    let cases: [(&[u8], Outcome); 36] = [
        (b"", Outcome::Nodes(0)),
        (b";", Outcome::Nodes(1)),
        (b"a = 1;", Outcome::Nodes(1)),
        (
            b"a += 1; b -= 1; c *= 2; d /= 2; e %= 2;",
            Outcome::Nodes(5),
        ),
        (
            b"a[i][j+1] = b[i*2] + f(x, 2) - (c < d ? 1 : 2);",
            Outcome::Nodes(1),
        ),
        (b"a = f();", Outcome::Nodes(1)),
        (b"for (i = 0; i < N; i++) a[i] = 0;", Outcome::Nodes(1)),
        (
            b"for (int i = N; i >= 0; i -= 1) { a[i] = 0; ; }",
            Outcome::Nodes(1),
        ),
        (b"for (i = 0; i <= N; ++i) ;", Outcome::Nodes(1)),
        (b"for (i = 0; i < N; i += 2) ;", Outcome::Nodes(1)),
        (b"for (i = N; i > 0; --i) ;", Outcome::Nodes(1)),
        (
            b"if (a == b && !(c || d)) x = 1; else { }",
            Outcome::Nodes(1),
        ),
        (b"for (i = N; i > 0; i--) ;", Outcome::Nodes(1)),
        (b"{ ; { } }", Outcome::Nodes(1)),
        (b"if (a) if (b) if (c) ; else ; else ;", Outcome::Nodes(1)),
        (
            b"if (a) if (b) ; else ; else ; else ;",
            Outcome::Syntax(1, 31),
        ),
        (
            b"a = f(b ? g(c ? 1 : 2, d) : h(e ? 3 : 4));",
            Outcome::Nodes(1),
        ),
        (b"a = f(b ? 1);", Outcome::Syntax(1, 12)),
        (b"a = max(1, min(2, ceild(n, 2)));", Outcome::Nodes(1)),
        (b"a = 1e+5 + 0x1e+2 * 007 % 2..3;", Outcome::Nodes(1)),
        (b"a = - - + !b;", Outcome::Nodes(1)),
        (b"a = b", Outcome::Syntax(1, 6)),
        (b"a = b;\n c = ", Outcome::Syntax(2, 6)),
        (b"a + b;", Outcome::Syntax(1, 3)),
        (b"a = max + 1;", Outcome::Syntax(1, 9)),
        (b"max(1) = 2;", Outcome::Syntax(1, 1)),
        (b"a = while;", Outcome::Syntax(1, 5)),
        (b"for (i = 0; j < N; i++) ;", Outcome::Syntax(1, 13)),
        (b"for (i = 0; i < N; j++) ;", Outcome::Syntax(1, 20)),
        (b"for (i = 0; i < N; i--) ;", Outcome::Syntax(1, 21)),
        (b"for (i = 0; i == N; i++) ;", Outcome::Syntax(1, 15)),
        (b"a[i < 2] = 1;", Outcome::Syntax(1, 5)),
        (b"else ;", Outcome::Syntax(1, 1)),
        (b"a = 1 & 2;", Outcome::Token(1, 7)),
        (b"a = 1; /* b", Outcome::Token(1, 8)),
        (
            b"170141183460469231731687303715884105728",
            Outcome::Number(1, 1),
        ),
    ];
    for (text, wanted) in cases {
        assert_eq!(rt; read(rt.alloc(), text), wanted);
    }
}

/// A text of `begin`, `count` times `piece`, and then `end`.
fn repeated(
    alloc: std::alloc::Global,
    begin: &[u8],
    piece: &[u8],
    count: usize,
    end: &[u8],
) -> Result<Vec<u8>, AllocError> {
    let mut text = Vec::new(alloc);
    text.extend_from_slice(begin)?;
    for _ in 0..count {
        text.extend_from_slice(piece)?;
    }
    text.extend_from_slice(end)?;
    Ok(text)
}

/// A reserved word is no value, and an operator of bounds is none where no `(` follows.
#[test]
fn words_are_no_names(rt: HostRuntime) -> Result<(), Failed> {
    let words: [(&[u8], u32); 36] = [
        (b"auto", 5),
        (b"break", 5),
        (b"case", 5),
        (b"char", 5),
        (b"const", 5),
        (b"continue", 5),
        (b"default", 5),
        (b"do", 5),
        (b"double", 5),
        (b"else", 5),
        (b"enum", 5),
        (b"extern", 5),
        (b"float", 5),
        (b"for", 5),
        (b"goto", 5),
        (b"if", 5),
        (b"int", 5),
        (b"long", 5),
        (b"register", 5),
        (b"return", 5),
        (b"short", 5),
        (b"signed", 5),
        (b"sizeof", 5),
        (b"static", 5),
        (b"struct", 5),
        (b"switch", 5),
        (b"typedef", 5),
        (b"union", 5),
        (b"unsigned", 5),
        (b"void", 5),
        (b"volatile", 5),
        (b"while", 5),
        (b"max", 8),
        (b"min", 8),
        (b"ceild", 10),
        (b"floord", 11),
    ];
    for (word, column) in words {
        let text = repeated(rt.alloc(), b"a = ", word, 1, b";")?;
        assert_eq!(rt;
            read(rt.alloc(), text.as_slice()),
            Outcome::Syntax(1, column)
        );
    }
    Ok(())
}

#[test]
fn depths(rt: HostRuntime) -> Result<(), Failed> {
    let cases: [(&[u8], usize, &[u8], Outcome); 20] = [
        (b"for(i=0;i<2;i++)", 12, b";", Outcome::Nodes(1)),
        (b"for(i=0;i<2;i++)", 13, b";", Outcome::Deep(1, 193)),
        (b"{", 64, b"", Outcome::Syntax(1, 65)),
        (b"{", 65, b"", Outcome::Deep(1, 65)),
        (b"if(a)", 64, b";", Outcome::Nodes(1)),
        (b"if(a)", 65, b";", Outcome::Deep(1, 323)),
        (b"if(a)", 64, b"{", Outcome::Deep(1, 321)),
        (b"if(a)", 64, b")", Outcome::Syntax(1, 321)),
        (b"if(a);else ", 64, b";", Outcome::Nodes(1)),
        (b"if(a);else ", 65, b";", Outcome::Deep(1, 707)),
        (b"{", 64, b"if (a) ;", Outcome::Deep(1, 68)),
        (b"{", 64, b"for (i", Outcome::Deep(1, 69)),
        (b"{", 64, b"a[0] = 1;", Outcome::Deep(1, 66)),
        (b"{", 64, b"a = -1;", Outcome::Deep(1, 69)),
        (b"{", 64, b"a = b ? 1 : 2;", Outcome::Deep(1, 71)),
        (b"b[-(", 21, b"(1", Outcome::Syntax(1, 87)),
        (b"b[-(", 21, b"((", Outcome::Deep(1, 86)),
        (b"if(a){", 32, b";", Outcome::Syntax(1, 194)),
        (b"if(a){", 32, b"{", Outcome::Deep(1, 193)),
        (b"if(a){", 32, b"if(a)", Outcome::Deep(1, 195)),
    ];
    for (piece, count, end, wanted) in cases {
        let text = repeated(rt.alloc(), b"", piece, count, end)?;
        assert_eq!(rt; read(rt.alloc(), text.as_slice()), wanted);
    }
    Ok(())
}

/// Texts of 16 MiB that open nests without end are refused where the 65th is opened.
#[test]
fn endless_nests(rt: HostRuntime) -> Result<(), Failed> {
    let cases: [(&[u8], &[u8], usize, Outcome); 3] = [
        (b"a = ", b"(", 16_777_212, Outcome::Deep(1, 69)),
        (b"", b"{", 16_777_216, Outcome::Deep(1, 65)),
        (b"if(a);", b"else if(a);", 1_525_200, Outcome::Deep(1, 707)),
    ];
    for (begin, piece, count, wanted) in cases {
        let text = repeated(rt.alloc(), begin, piece, count, b"")?;
        assert_eq!(rt; read(rt.alloc(), text.as_slice()), wanted);
    }
    Ok(())
}

/// The span of a whole text.
fn whole(text: &[u8]) -> Span
    ensures order { result.from ≤ result.to }
    ensures within { result.to ≤ length text.now }
    ensures placed { result.first ≡ place_at text.now result.from }
{
    let first = Place { line: 1, column: 1 };
    Span {
        from: 0,
        to: text.len(),
        first,
    }
}

/// An `else` belongs to the nearest `if`, and a body goes up to its `;`.
#[test]
fn shapes(rt: HostRuntime) -> Result<(), Failed> {
    let text: &[u8] = b"if (a) if (b) x[i] = 1 ; else ;";
    assert!(rt; text.len() < 1000);
    let Ok(region) = parse_region(rt.alloc(), text, whole(text)) else {
        return Err(Failed::from(AllocError));
    };
    let Some(Node::If(outer)) = region.nodes.get(0) else {
        return Err(Failed::from(AllocError));
    };
    assert!(rt; outer.get().other.is_none());
    let Node::If(inner) = &outer.get().then else {
        return Err(Failed::from(AllocError));
    };
    assert!(rt; inner.get().other.is_some());
    let Node::Assign(assign) = &inner.get().then else {
        return Err(Failed::from(AllocError));
    };
    assert_eq!(rt; (assign.body.from, assign.body.to), (14, 23));
    assert_eq!(rt; (assign.target.name.from, assign.target.name.to), (14, 15));
    assert_eq!(rt; assign.target.subscripts.len(), 1);
    Ok(())
}

/// The body of an assignment.
fn body(node: Option<&Node>) -> (usize, usize) {
    match node {
        Some(Node::Assign(assign)) => (assign.body.from, assign.body.to),
        _ => (0, 0),
    }
}

/// The bodies of statements behind blanks and comments.
#[test]
fn bodies(rt: HostRuntime) -> Result<(), Failed> {
    let text: &[u8] = b"a = 1;\n/* of */ b[i] += a; // ;\n\n\tc = b[2] ;";
    assert!(rt; text.len() < 1000);
    let Ok(region) = parse_region(rt.alloc(), text, whole(text)) else {
        return Err(Failed::from(AllocError));
    };
    assert_eq!(rt; region.nodes.len(), 3);
    let wanted = [(0, (0, 5)), (1, (16, 25)), (2, (34, 43)), (3, (0, 0))];
    for (k, span) in wanted {
        assert_eq!(rt; body(region.nodes.get(k)), span);
    }
    Ok(())
}
