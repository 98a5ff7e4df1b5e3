//! Each public call once with ample memory, and the limit of one input.

use std::alloc::Global;
use std::process::Abort;
use std::test::Fail as TestFail;
use suite_base::{
    Fail, Failed, Files, Lines, List, MemFiles, MemSink, MemSource, Place, ReadFail, Refusal, Sink,
    Source, SureFiles, SureSink, SureSource, Text, Which, WordList, read_all, read_file, trimmed,
    write_all, write_pieces,
};

fn text_of(alloc: Global, bytes: &[u8]) -> Result<Text, TestFail> {
    let mut text = Text::new(alloc);
    text.push_bytes(bytes)?;
    Ok(text)
}

#[test]
fn lists_grow(rt: HostRuntime) -> Result<(), TestFail> {
    let mut list: List<u32> = List::new(rt.alloc());
    assert_eq!(rt; list.pop(), None);
    list.push(3)?;
    list.push(5)?;
    list.insert(1, 4)?;
    assert_eq!(rt; list.len(), 3);
    assert_eq!(rt; list.as_slice(), [3, 4, 5].as_slice());
    assert_eq!(rt; list.set(0, 2), 3);
    assert_eq!(rt; list.get(0), Some(&2));
    assert_eq!(rt; list.get(3), None);
    assert_eq!(rt; list.pop(), Some(5));
    assert_eq!(rt; list.as_slice(), [2, 4].as_slice());
    Ok(())
}

#[test]
fn texts_and_words_grow(rt: HostRuntime) -> Result<(), TestFail> {
    let mut text = Text::new(rt.alloc());
    text.push(b'x')?;
    text.push_bytes(b" = ")?;
    text.push_number(-12)?;
    assert_eq!(rt; text.bytes(), b"x = -12".as_slice());
    assert_eq!(rt; text.len(), 7);
    let mut words = WordList::new(rt.alloc());
    words.push("clan")?;
    assert_eq!(rt; words.len(), 1);
    assert_eq!(rt; words.word(0), Some("clan"));
    assert_eq!(rt; words.word(1), None);
    let mut lines = Lines::new(b" a \n\nb");
    assert_eq!(rt; lines.next(), Some(b" a ".as_slice()));
    assert_eq!(rt; lines.next(), Some(b"".as_slice()));
    assert_eq!(rt; lines.next(), Some(b"b".as_slice()));
    assert_eq!(rt; lines.next(), None);
    assert_eq!(rt; trimmed(b"\t a b \r"), b"a b".as_slice());
    Ok(())
}

#[test]
fn refusals_have_numbers(rt: HostRuntime) {
    let place = Place { line: 3, column: 5 };
    let cases: [(Refusal, u8, &str); 5] = [
        (Refusal::TooLong, 1, "TooLong"),
        (Refusal::NotAffine(place), 8, "NotAffine"),
        (Refusal::BetaClash(1, 2), 15, "BetaClash"),
        (Refusal::Limit(Which::Rows, 1), 17, "Limit"),
        (Refusal::BadCertificate(0), 29, "BadCertificate"),
    ];
    for (refusal, number, name) in &cases {
        assert_eq!(rt; refusal.entry().number, *number);
        assert_eq!(rt; refusal.entry().name, *name);
    }
    assert_ne!(rt; Fail::Memory, Fail::Refused(Refusal::TooLong));
}

#[test]
fn sources_are_read(rt: HostRuntime) -> Result<(), TestFail> {
    let mut sure = SureSource::new(text_of(rt.alloc(), b"abc")?);
    let mut buffer = [0; 2];
    assert_eq!(rt; sure.read(&mut buffer), Ok(2));
    let rest = read_all(rt.alloc(), &mut sure);
    assert_eq!(rt; rest.map(|text| text.len()), Ok(1));
    let mut fails = List::new(rt.alloc());
    fails.push(2)?;
    let mut failing = MemSource::new(text_of(rt.alloc(), b"abc")?, fails);
    assert_eq!(rt; failing.read(&mut buffer), Ok(2));
    assert_eq!(rt; failing.read(&mut buffer), Err(Failed));
    let left = read_all(rt.alloc(), &mut failing);
    assert_eq!(rt; left.map(|text| text.len()), Ok(1));
    Ok(())
}

#[test]
fn files_are_read(rt: HostRuntime) -> Result<(), TestFail> {
    let mut files = List::new(rt.alloc());
    files.push((text_of(rt.alloc(), b"a.c")?, text_of(rt.alloc(), b"int")?))?;
    let mut sure = SureFiles::new(files);
    let read = read_file(rt.alloc(), &mut sure, "a.c");
    assert_eq!(rt; read.map(|text| text.len()), Ok(3));
    let missing = read_file(rt.alloc(), &mut sure, "b.c");
    assert_eq!(rt; missing.map(|text| text.len()), Err(ReadFail::Fault));
    let mut files = List::new(rt.alloc());
    files.push((text_of(rt.alloc(), b"a.c")?, text_of(rt.alloc(), b"int")?))?;
    let mut fails = List::new(rt.alloc());
    fails.push(2)?;
    let mut failing = MemFiles::new(files, fails);
    let read = read_file(rt.alloc(), &mut failing, "a.c");
    assert_eq!(rt; read.map(|text| text.len()), Err(ReadFail::Fault));
    let again = read_file(rt.alloc(), &mut failing, "a.c");
    assert_eq!(rt; again.map(|text| text.len()), Ok(3));
    assert_eq!(rt; failing.open("a.c"), Ok(()));
    failing.close();
    Ok(())
}

#[test]
fn sinks_are_written(rt: HostRuntime) -> Result<(), TestFail> {
    let mut fails = List::new(rt.alloc());
    fails.push(3)?;
    let mut sink = MemSink::new(rt.alloc(), fails);
    let pieces: [&[u8]; 2] = [b"ab", b"c"];
    assert_eq!(rt; write_pieces(&mut sink, &pieces), Ok(()));
    assert_eq!(rt; write_all(&mut sink, b"d"), Err(Failed));
    assert_eq!(rt; write_all(&mut sink, b"e"), Ok(()));
    assert_eq!(rt; sink.bytes(), b"abce".as_slice());
    let mut sure = SureSink::new();
    assert_eq!(rt; sure.write(b"abc"), Ok(3));
    Ok(())
}

/// A text of `n` newlines.
fn newlines(alloc: Global, n: usize) -> Result<Text, TestFail> {
    let piece = [b'\n'; 4096];
    let mut text = Text::new(alloc);
    for _ in 0..n / 4096 {
        text.push_bytes(&piece)?;
    }
    text.push_bytes(&piece[..n % 4096])?;
    Ok(text)
}

#[test]
fn inputs_have_a_limit(rt: HostRuntime) -> Result<(), TestFail> {
    let mut most = SureSource::new(newlines(rt.alloc(), 16_777_216)?);
    assert_eq!(rt;
        read_all(rt.alloc(), &mut most).map(|text| text.len()),
        Ok(16_777_216)
    );
    let mut more = SureSource::new(newlines(rt.alloc(), 16_777_217)?);
    assert_eq!(rt;
        read_all(rt.alloc(), &mut more).map(|text| text.len()),
        Err(ReadFail::TooLong)
    );
    Ok(())
}
