//! Regions and tokens of small texts.

use c_lexer::{BadToken, Lexer, Pragma, RegionFail, Span, TokenKind, find_region, is_pragma};
use std::alloc::AllocError;
use std::test::Fail;
use suite_base::Place;

#[test]
fn pragma_lines(rt: HostRuntime) {
    let cases: [(&[u8], bool, bool); 10] = [
        (b"#pragma scop", true, false),
        (b"  # \t pragma   scop \r", true, false),
        (b"\t#pragma\tendscop", false, true),
        (b"#pragmascop", false, false),
        (b"#pragma scop x", false, false),
        (b"#pragma scopend", false, false),
        (b"#pragma", false, false),
        (b"pragma scop", false, false),
        (b"# pragma end scop", false, false),
        (b"", false, false),
    ];
    for (line, scop, endscop) in cases {
        assert_eq!(rt; is_pragma(line, Pragma::Scop), scop);
        assert_eq!(rt; is_pragma(line, Pragma::Endscop), endscop);
    }
}

#[test]
fn regions(rt: HostRuntime) {
    let cases: [(&[u8], Result<(usize, usize, u32), RegionFail>); 9] = [
        (b"#pragma scop\na;\n#pragma endscop\n", Ok((13, 16, 2))),
        (b"x\n#pragma scop\n#pragma endscop", Ok((15, 15, 3))),
        (
            b"/*\n #pragma scop\n*/ a;\n#pragma endscop\n*/",
            Ok((17, 23, 3)),
        ),
        (b"", Err(RegionFail::NoRegion)),
        (b"#pragma endscop\n", Err(RegionFail::NoRegion)),
        (
            b"#pragma endscop\n#pragma scop\n",
            Err(RegionFail::OpenRegion(2)),
        ),
        (
            b"#pragma scop\n#pragma scop",
            Err(RegionFail::OpenRegion(1)),
        ),
        (
            b"#pragma scop\n#pragma scop\n#pragma endscop",
            Err(RegionFail::SecondRegion(2)),
        ),
        (
            b"#pragma scop\n#pragma endscop\n\n#pragma scop",
            Err(RegionFail::SecondRegion(4)),
        ),
    ];
    for (text, wanted) in cases {
        assert!(rt; text.len() < 1000);
        let found = match find_region(text) {
            Ok(span) => {
                assert_eq!(rt; span.first.column, 1);
                Ok((span.from, span.to, span.first.line))
            }
            Err(fail) => Err(fail),
        };
        assert_eq!(rt; found, wanted);
    }
}

fn letter(kind: TokenKind) -> u8 {
    match kind {
        TokenKind::Name => b'N',
        TokenKind::Integer => b'I',
        TokenKind::Literal => b'L',
        TokenKind::Sign => b'S',
    }
}

/// The tokens of a text: the letter of each kind and its bytes, a blank before each; and last its place
/// where none begins, as two digits after `!`.
fn shown(alloc: std::alloc::Global, lexer: &mut Lexer<'_>) -> Result<Vec<u8>, AllocError> {
    let mut out = Vec::new(alloc);
    for _ in 0..20 {
        match lexer.next() {
            Ok(None) => return Ok(out),
            Ok(Some(token)) => {
                out.push(b' ')?;
                out.push(letter(token.kind))?;
                out.extend_from_slice(token.text)?;
            }
            Err(BadToken(place)) => {
                out.extend_from_slice(b" !")?;
                out.push(b'0' + (place.line % 10) as u8)?;
                out.push(b'0' + (place.column % 10) as u8)?;
                return Ok(out);
            }
        }
    }
    Ok(out)
}

#[test]
fn tokens(rt: HostRuntime) -> Result<(), Fail> {
    let cases: [(&[u8], &[u8]); 22] = [
        (b"a = b1_;", b" Na S= Nb1_ S;"),
        (b"+++", b" S++ S+"),
        (b"<==", b" S<= S="),
        (b"a---b", b" Na S-- S- Nb"),
        (b"1e+5", b" L1e+5"),
        (b"0x1e+2", b" L0x1e+2"),
        (b"2..3", b" L2..3"),
        (b"007 00 0 10", b" L007 L00 I0 I10"),
        (b"1-e", b" I1 S- Ne"),
        (b".5.", b" L.5."),
        (b"a.b", b" Na !12"),
        (b"&& & x", b" S&& !14"),
        (b"a /* b */ c // d\n e", b" Na Nc Ne"),
        (b"a /**/ /***/ b", b" Na Nb"),
        (b"a\n  /* b * / c", b" Na !23"),
        (b"/*/ a", b" !11"),
        (b"a // b /* c", b" Na"),
        (b"a */ b", b" Na S* S/ Nb"),
        (b"\x0b", b" !11"),
        (b"int i\xff", b" Nint Ni !16"),
        (b"%= /= || ? :", b" S%= S/= S|| S? S:"),
        (b" \r\n\t", b""),
    ];
    for (text, wanted) in cases {
        assert!(rt; text.len() < 1000);
        let first = Place { line: 1, column: 1 };
        let span = Span {
            from: 0,
            to: text.len(),
            first,
        };
        let mut lexer = Lexer::new(text, span);
        let out = shown(rt.alloc(), &mut lexer)?;
        assert_eq!(rt; out.as_slice(), wanted);
        // the last answer is given again
        let last = lexer.next();
        let again = lexer.next();
        match (last, again) {
            (Ok(a), Ok(b)) => {
                assert!(rt; a.is_none() && b.is_none());
            }
            (Err(BadToken(a)), Err(BadToken(b))) => {
                assert_eq!(rt; a, b);
            }
            _ => assert!(rt; false),
        }
    }
    Ok(())
}

/// A region is cut inside its text: a comment that goes on behind the last line has no end.
#[test]
fn region_tokens(rt: HostRuntime) -> Result<(), Fail> {
    let text: &[u8] = b"x\n#pragma scop\n a /* b\n#pragma endscop\n*/\n";
    assert!(rt; text.len() < 1000);
    let Ok(span) = find_region(text) else {
        return Err(Fail::from(AllocError));
    };
    let mut lexer = Lexer::new(text, span);
    let out = shown(rt.alloc(), &mut lexer)?;
    assert_eq!(rt; out.as_slice(), b" Na !34".as_slice());
    Ok(())
}
