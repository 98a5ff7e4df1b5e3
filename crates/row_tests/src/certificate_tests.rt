//! The check and the text of certificates at worked systems.

use crate::values::{coeff, push};
use farkas_cert::{
    Certificate, TooHeavy, check, print_cert, read_cert, reads_back, valid_means_empty,
};
use relation_core::{Part, RowKind, Shape};
use std::alloc::Global;
use std::process::Abort;
use std::test::Fail;
use suite_base::Text;

const MOST: i128 = i128::MAX;

fn certificate(rt: &impl Abort, alloc: Global, values: &[i128]) -> Result<Certificate, Fail> {
    let mut made = Certificate::new(alloc);
    for n in values {
        made.push(coeff(rt, *n))?;
    }
    Ok(made)
}

// A system with one output and one input.
fn pair(alloc: Global) -> Part {
    let shape = Shape {
        outputs: 1,
        inputs: 1,
        locals: 0,
        parameters: 0,
    };
    Part::new(alloc, shape)
}

fn answers(
    rt: &impl Abort,
    system: &Part,
    multipliers: &[i128],
    wanted: Result<bool, TooHeavy>,
) -> Result<(), Fail> {
    let certificate = certificate(rt, system.allocator(), multipliers)?;
    assert_eq!(rt; check(system, &certificate), wanted);
    Ok(())
}

#[test]
fn worked_systems(rt: HostRuntime) -> Result<(), Fail> {
    valid_means_empty();
    let mut apart = pair(rt.alloc());
    push(&rt, &mut apart, RowKind::AtLeast, &[1, 0, -1])?;
    push(&rt, &mut apart, RowKind::AtLeast, &[-1, 0, 0])?;
    answers(&rt, &apart, &[1, 1], Ok(true))?;
    answers(&rt, &apart, &[1, 2], Ok(false))?;
    answers(&rt, &apart, &[-1, 1], Ok(false))?;
    answers(&rt, &apart, &[1], Ok(false))?;
    answers(&rt, &apart, &[1, 1, 0], Ok(false))?;
    answers(&rt, &apart, &[MOST, MOST], Err(TooHeavy))?;
    answers(&rt, &apart, &[MOST], Ok(false))?;

    let mut above = pair(rt.alloc());
    push(&rt, &mut above, RowKind::AtLeast, &[1, 0, 0])?;
    push(&rt, &mut above, RowKind::AtLeast, &[1, 0, 1])?;
    answers(&rt, &above, &[1, -1], Ok(false))?;

    let mut odd = pair(rt.alloc());
    push(&rt, &mut odd, RowKind::Equal, &[-1, 2, 0])?;
    push(&rt, &mut odd, RowKind::AtLeast, &[-1, 2, -1])?;
    answers(&rt, &odd, &[-1, 1], Ok(true))?;
    answers(&rt, &odd, &[1, 1], Ok(false))
}

#[test]
fn ends_of_the_range(rt: HostRuntime) -> Result<(), Fail> {
    let mut constants = pair(rt.alloc());
    push(&rt, &mut constants, RowKind::AtLeast, &[0, 0, -1])?;
    push(&rt, &mut constants, RowKind::AtLeast, &[0, 0, 1])?;
    answers(&rt, &constants, &[MOST, 0], Ok(true))?;
    answers(&rt, &constants, &[MOST, 1], Err(TooHeavy))?;

    let mut equalities = pair(rt.alloc());
    push(&rt, &mut equalities, RowKind::Equal, &[1, 0, 0])?;
    push(&rt, &mut equalities, RowKind::Equal, &[1, 0, 1])?;
    answers(&rt, &equalities, &[1, -1], Ok(true))?;
    answers(&rt, &equalities, &[-1, 1], Ok(false))
}

#[test]
fn printed_and_read(rt: HostRuntime) -> Result<(), Fail> {
    reads_back();
    let cases: [(&[i128], &[u8]); 4] = [
        (&[], b"\n"),
        (&[7], b"7\n"),
        (&[1, -2, 0], b"1 -2 0\n"),
        (
            &[MOST, -MOST],
            b"170141183460469231731687303715884105727 -170141183460469231731687303715884105727\n",
        ),
    ];
    for (multipliers, wanted) in cases {
        let made = certificate(&rt, rt.alloc(), multipliers)?;
        let mut text = Text::new(rt.alloc());
        print_cert(&mut text, &made)?;
        assert_eq!(rt; text.bytes(), wanted);
        let (line, _) = text.bytes().split_at(text.len() - 1);
        match read_cert(rt.alloc(), line)? {
            Some(back) => assert_eq!(rt; back.as_slice(), made.as_slice()),
            None => panic!(rt; "the printed line is read"),
        }
    }
    Ok(())
}

#[test]
fn lines_that_are_read(rt: HostRuntime) -> Result<(), Fail> {
    let cases: [(&[u8], Option<usize>); 6] = [
        (b"", Some(0)),
        (b" \t", Some(0)),
        (b" 1\t-2  003 ", Some(3)),
        (b"1 +2", None),
        (b"1 x", None),
        (b"170141183460469231731687303715884105728", None),
    ];
    for (line, wanted) in cases {
        let found = read_cert(rt.alloc(), line)?;
        match found {
            Some(certificate) => assert_eq!(rt; Some(certificate.len()), wanted),
            None => assert_eq!(rt; None, wanted),
        }
    }
    Ok(())
}
