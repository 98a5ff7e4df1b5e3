//! Parts and relations at small systems, and their printed layout.

use crate::values::push;
use relation_core::{Part, Relation, RowKind, Shape, print_header, print_part, print_row};
use std::alloc::Global;
use std::process::Abort;
use std::test::Fail;
use suite_base::Text;

const MOST: i128 = i128::MAX;

fn prints(rt: &impl Abort, alloc: Global, part: &Part, wanted: &[u8]) -> Result<(), Fail> {
    let mut text = Text::new(alloc);
    text.push(b'>')?;
    print_part(&mut text, part)?;
    match text.bytes() {
        [first, printed @ ..] => {
            assert_eq!(rt; *first, b'>');
            assert_eq!(rt; printed, wanted);
        }
        [] => panic!(rt; "nothing is printed"),
    }
    Ok(())
}

fn has(rt: &impl Abort, text: &Text, wanted: &[u8]) -> Result<(), Fail> {
    assert_eq!(rt; text.bytes(), wanted);
    Ok(())
}

// 0 <= i and i <= N - 1, over the iterator i and the parameter N.
fn upward(rt: &impl Abort, alloc: Global) -> Result<Part, Fail> {
    let shape = Shape {
        outputs: 1,
        inputs: 0,
        locals: 0,
        parameters: 1,
    };
    let mut part = Part::new(alloc, shape);
    push(rt, &mut part, RowKind::AtLeast, &[1, 0, 0])?;
    push(rt, &mut part, RowKind::AtLeast, &[-1, 1, -1])?;
    Ok(part)
}

#[test]
fn printed_parts(rt: HostRuntime) -> Result<(), Fail> {
    let part = upward(&rt, rt.alloc())?;
    prints(&rt, rt.alloc(), &part, b"2 4 1 0 0 1\n1 1 0 0\n1 -1 1 -1\n")
}

#[test]
fn ends_of_the_range(rt: HostRuntime) -> Result<(), Fail> {
    let shape = Shape {
        outputs: 1,
        inputs: 0,
        locals: 0,
        parameters: 0,
    };
    let mut part = Part::new(rt.alloc(), shape);
    prints(&rt, rt.alloc(), &part, b"0 3 1 0 0 0\n")?;
    push(&rt, &mut part, RowKind::Equal, &[MOST, -MOST])?;
    prints(
        &rt,
        rt.alloc(),
        &part,
        b"1 3 1 0 0 0\n0 170141183460469231731687303715884105727 -170141183460469231731687303715884105727\n",
    )
}

#[test]
fn joined_parts(rt: HostRuntime) -> Result<(), Fail> {
    let mut part = upward(&rt, rt.alloc())?;
    let other = upward(&rt, rt.alloc())?;
    assert_eq!(rt; part.shape(), other.shape());
    part.conjoin(&other)?;
    prints(
        &rt,
        rt.alloc(),
        &part,
        b"4 4 1 0 0 1\n1 1 0 0\n1 -1 1 -1\n1 1 0 0\n1 -1 1 -1\n",
    )
}

#[test]
fn shortened_parts(rt: HostRuntime) -> Result<(), Fail> {
    let mut part = upward(&rt, rt.alloc())?;
    part.truncate(2);
    assert_eq!(rt; part.row_count(), 2);
    part.truncate(1);
    prints(&rt, rt.alloc(), &part, b"1 4 1 0 0 1\n1 1 0 0\n")?;
    part.truncate(3);
    assert_eq!(rt; part.row_count(), 1);
    part.truncate(0);
    prints(&rt, rt.alloc(), &part, b"0 4 1 0 0 1\n")
}

#[test]
fn texts_without_newlines(rt: HostRuntime) -> Result<(), Fail> {
    let part = upward(&rt, rt.alloc())?;
    let mut text = Text::new(rt.alloc());
    print_header(&mut text, &part)?;
    text.push(b'|')?;
    for row in part.rows() {
        print_row(&mut text, row)?;
        text.push(b'|')?;
    }
    has(&rt, &text, b"2 4 1 0 0 1|1 1 0 0|1 -1 1 -1|")
}

#[test]
fn accessors(rt: HostRuntime) -> Result<(), Fail> {
    let part = upward(&rt, rt.alloc())?;
    assert_eq!(rt; part.row_count(), 2);
    assert_eq!(rt; part.width(), 3);
    assert_eq!(rt; part.kind(1), RowKind::AtLeast);
    assert_eq!(rt; part.entry(1, 2).value(), -1);
    Ok(())
}

#[test]
fn widened_parts(rt: HostRuntime) -> Result<(), Fail> {
    let shape = Shape {
        outputs: 1,
        inputs: 1,
        locals: 2,
        parameters: 1,
    };
    let mut part = Part::new(rt.alloc(), shape);
    push(&rt, &mut part, RowKind::Equal, &[1, 2, 3, 4, 5, 6])?;
    assert_eq!(rt; part.shape(), shape);
    let cases: [&[u8]; 3] = [
        b"1 8 1 1 3 1\n0 1 2 0 3 4 5 6\n",
        b"1 8 1 1 3 1\n0 1 2 3 0 4 5 6\n",
        b"1 8 1 1 3 1\n0 1 2 3 4 0 5 6\n",
    ];
    for at in 0..3 {
        prints(
            &rt,
            rt.alloc(),
            &part.with_column(rt.alloc(), at)?,
            cases[at],
        )?;
    }
    Ok(())
}

#[test]
fn parts_of_a_relation(rt: HostRuntime) -> Result<(), Fail> {
    let alloc = rt.alloc();
    let mut relation = Relation::new(alloc);
    assert_eq!(rt; relation.len(), 0);
    for _ in 0..2 {
        let pushed = relation.push_part(upward(&rt, alloc)?);
        assert_eq!(rt; pushed.is_ok(), true);
    }
    assert_eq!(rt; relation.len(), 2);
    assert_eq!(rt; relation.part(2).is_none(), true);
    match relation.part(1) {
        Some(part) => prints(&rt, alloc, part, b"2 4 1 0 0 1\n1 1 0 0\n1 -1 1 -1\n"),
        None => panic!(rt; "no second part"),
    }
}
