//! Scripts read, refused and printed, as tables.

use clay_script::{Script, print_script, read_script};
use std::alloc::Global;
use std::test::Fail as TestFail;
use suite_base::{Fail, Place, Refusal, Text, Which};

/// The commands of each text, printed; comments, blanks and newlines may stand anywhere.
#[test]
fn scripts_are_read_and_printed(rt: HostRuntime) -> Result<(), TestFail> {
    let cases: [(&[u8], &[u8]); 12] = [
        (b"", b""),
        (b" \t\r\n# a comment", b""),
        (b"fission([0,1],2);", b"fission([0, 1], 2);\n"),
        (b"fuse ( [ ] ) ;", b"fuse([]);\n"),
        (b"reorder([], [2, 0, 1]);", b"reorder([], [2, 0, 1]);\n"),
        (
            b"interchange([0], 1, 2);reverse([0], 01);",
            b"interchange([0], 1, 2);\nreverse([0], 1);\n",
        ),
        (b"skew([0], 2, 1, -1);", b"skew([0], 2, 1, -1);\n"),
        (b"shift([0], 1, [1,0], -0);", b"shift([0], 1, [1, 0], 0);\n"),
        (b"stripmine([0], 1, 007);", b"stripmine([0], 1, 7);\n"),
        (b"tile([0], 3, 32, 2);", b"tile([0], 3, 32, 2);\n"),
        (b"iss([0], [1], [], -5);", b"iss([0], [1], [], -5);\n"),
        (
            b"fuse # (\r\n([170141183460469231731687303715884105727#]\n, -170141183460469231731687303715884105727])\n;\n",
            b"fuse([170141183460469231731687303715884105727, -170141183460469231731687303715884105727]);\n",
        ),
    ];
    for (text, wanted) in &cases {
        let script = script_of(rt.alloc(), text)
            .ok()
            .ok_or("the text is a script")?;
        let printed = print_script(rt.alloc(), &script).ok().ok_or("memory")?;
        assert!(rt; printed.bytes() == *wanted);
        let again = script_of(rt.alloc(), printed.bytes())
            .ok()
            .ok_or("the printed text is a script")?;
        assert_eq!(rt; again.len(), script.len());
    }
    Ok(())
}

/// The place of the first fault of each text.
#[test]
fn faults_are_found_at_their_places(rt: HostRuntime) {
    let cases: [(&[u8], u32, u32); 24] = [
        (b"shift([0], 1, 1);", 1, 15),
        (b"shift([0], [1], [0], 1);", 1, 12),
        (b"frob([0]);", 1, 1),
        (b"Fuse([0]);", 1, 1),
        (b"fuse2([0]);", 1, 5),
        (b"fuse([0]1x", 1, 9),
        (b"fuse([1x]);", 1, 8),
        (b"fuse([1 2]);", 1, 9),
        (b"fuse([1,]);", 1, 9),
        (b"fuse([,1]);", 1, 7),
        (b"fuse([0]", 1, 9),
        (b"fuse([0]);\nfuse", 2, 5),
        (b"fuse([0]);\nfuse\n", 3, 1),
        (b"# one\r\nfuse([0]) # ;\r\n", 3, 1),
        (b"fuse([0])", 1, 10),
        (b"fuse([0]));", 1, 10),
        (b"fuse[0];", 1, 5),
        (b"fuse([0], 1);", 1, 9),
        (b"fission([0]);", 1, 12),
        (b"fuse([+1]);", 1, 7),
        (b"fuse([-]);", 1, 7),
        (b"fuse([--1]);", 1, 7),
        (b"fuse(0);", 1, 6),
        (b";", 1, 1),
    ];
    for (text, line, column) in &cases {
        let wanted = Fail::Refused(Refusal::BadScript(Place {
            line: *line,
            column: *column,
        }));
        assert!(rt; refusal(rt.alloc(), text) == Some(wanted));
    }
}

/// A number past the range stands at the place; where it stands comes before what it is.
#[test]
fn numbers_past_the_range_are_refused(rt: HostRuntime) {
    let cases: [(&[u8], u32, u32); 4] = [
        (b"fuse([170141183460469231731687303715884105728]);", 1, 7),
        (b"fuse(-170141183460469231731687303715884105728);", 1, 6),
        (
            b"fuse([1,\n 99999999999999999999999999999999999999999]);",
            2,
            2,
        ),
        (b"170141183460469231731687303715884105728", 1, 1),
    ];
    for (text, line, column) in &cases {
        let wanted = Fail::Refused(Refusal::NumberTooLarge(Place {
            line: *line,
            column: *column,
        }));
        assert!(rt; refusal(rt.alloc(), text) == Some(wanted));
    }
}

/// 4,096 commands are read; the name of one more is refused, an unknown one as a bad script.
#[test]
fn commands_are_counted(rt: HostRuntime) -> Result<(), TestFail> {
    let mut text = Text::new(rt.alloc());
    for _ in 0..4_096 {
        text.push_bytes(b"fuse([0]);\n").ok().ok_or("memory")?;
    }
    let script = script_of(rt.alloc(), text.bytes())
        .ok()
        .ok_or("the text is a script")?;
    assert_eq!(rt; script.len(), 4_096);
    let printed = print_script(rt.alloc(), &script).ok().ok_or("memory")?;
    assert!(rt; printed.bytes() == text.bytes());
    text.push_bytes(b"fus").ok().ok_or("memory")?;
    let wanted = Fail::Refused(Refusal::BadScript(Place {
        line: 4097,
        column: 1,
    }));
    assert!(rt; refusal(rt.alloc(), text.bytes()) == Some(wanted));
    text.push_bytes(b"e").ok().ok_or("memory")?;
    let wanted = Fail::Refused(Refusal::Limit(Which::Commands, 0));
    assert!(rt; refusal(rt.alloc(), text.bytes()) == Some(wanted));
    Ok(())
}

/// Reads a short text.
fn script_of(alloc: Global, text: &[u8]) -> Result<Script, Fail> {
    if text.len() > 1_000_000 {
        return Err(Fail::Memory);
    }
    read_script(alloc, text)
}

/// Why a text is no script.
fn refusal(alloc: Global, text: &[u8]) -> Option<Fail> {
    match script_of(alloc, text) {
        Ok(_) => None,
        Err(fail) => Some(fail),
    }
}
