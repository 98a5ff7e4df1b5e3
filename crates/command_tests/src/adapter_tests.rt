//! The adapters over readers and writers in memory, and over a file of the system.

use std::fs;
use std::process::Abort;
use std::test::Fail;
use suite_base::{Failed, Files, Sink, Source, read_file, write_all};
use suite_cli::{RealFiles, RealInput, RealOutput};

#[test]
fn input_adapter_reads(rt: HostRuntime) -> Result<(), Fail> {
    let bytes: &[u8] = b"abc";
    let mut input = RealInput::new(bytes);
    let mut buffer = [0; 2];
    assert_eq!(rt; input.read(&mut buffer), Ok(2));
    assert_eq!(rt; buffer, [b'a', b'b']);
    assert_eq!(rt; input.read(&mut buffer), Ok(1));
    assert_eq!(rt; input.read(&mut buffer), Ok(0));
    Ok(())
}

#[test]
fn output_adapter_writes(rt: HostRuntime) -> Result<(), Fail> {
    let mut out = RealOutput::new(Vec::new(rt.alloc()));
    assert_eq!(rt; write_all(&mut out, b"abc"), Ok(()));
    assert_eq!(rt; out.write(b"d"), Ok(1));
    Ok(())
}

#[test]
fn files_adapter_reads(rt: HostRuntime) -> Result<(), Fail> {
    fs::write(&rt, "suite_cli_adapter_test", b"abc".as_slice())?;
    let mut files = RealFiles::new(&rt);
    let read = read_file(rt.alloc(), &mut files, "suite_cli_adapter_test");
    assert_eq!(rt; read.map(|text| text.len()), Ok(3));
    fs::remove_file(&rt, "suite_cli_adapter_test")?;
    assert_eq!(rt; files.open("suite_cli_adapter_test"), Err(Failed));
    Ok(())
}
