//! Worked cases of the operations, their refusals in order, and the ends of the ranges.

ghost use Rattle.std.specs.Prelude.{◌≡◌, ◌∷◌, [], length, IfOk};

use beta_tree::{BetaFail, Betas};
use row_core::Coeff;
use std::alloc::Global;
use std::test::Fail;
use suite_base::{List, NoMemory};

/// The vector of `a` and `b`.
fn pair(alloc: Global, a: Coeff, b: Coeff) -> Result<List<Coeff>, NoMemory>
    ensures { IfOk result (λ vector. vector ≡ a ∷ (b ∷ [])) }
{
    let mut vector = List::new(alloc);
    vector.push(a)?;
    vector.push(b)?;
    Ok(vector)
}

/// The vectors [0, -1], [0, 1], [1] numbered densely: a loop of two statements and one after it.
fn loop_and_statement(alloc: Global) -> Result<Betas, NoMemory>
    ensures { IfOk result (λ betas. betas ≡ (0 ∷ (0 ∷ [])) ∷ ((0 ∷ (1 ∷ [])) ∷ ((1 ∷ []) ∷ []))) }
{
    let zero = Coeff::bounded(0);
    let one = Coeff::bounded(1);
    let mut vectors = List::new(alloc);
    vectors.push(pair(alloc, zero, Coeff::bounded(-1))?)?;
    vectors.push(pair(alloc, zero, one)?)?;
    let mut last = List::new(alloc);
    last.push(one)?;
    vectors.push(last)?;
    Betas::dense(alloc, &vectors)
}

/// Whether the vectors are `wanted`.
fn are(betas: &Betas, wanted: &[&[u32]]) -> bool {
    if betas.len() != wanted.len() {
        return false;
    }
    for (k, vector) in wanted.iter().enumerate() {
        match betas.vector(k) {
            Some(found) if found == *vector => {}
            _ => return false,
        }
    }
    true
}

/// `split_leaf`, while there are few vectors.
fn split(betas: &mut Betas, leaf: &[u32]) -> Result<(), BetaFail> {
    if betas.len() > 2000 {
        return Err(BetaFail::Memory);
    }
    betas.split_leaf(leaf)
}

#[test]
fn edits_of_a_loop_and_a_statement(rt: HostRuntime) -> Result<(), Fail> {
    let alloc = rt.alloc();
    let mut betas = loop_and_statement(alloc)?;
    assert!(rt; are(&betas, &[&[0, 0], &[0, 1], &[1]]));
    betas.fission(&[0], 1)?;
    assert!(rt; are(&betas, &[&[0, 0], &[1, 0], &[2]]));
    betas.fuse(&[0])?;
    assert!(rt; are(&betas, &[&[0, 0], &[0, 1], &[1]]));
    betas.fission(&[0], 1)?;
    betas.reorder(&[], &[2, 0, 1])?;
    assert!(rt; are(&betas, &[&[1, 0], &[2, 0], &[0]]));
    betas.reorder(&[], &[1, 2, 0])?;
    assert!(rt; are(&betas, &[&[0, 0], &[1, 0], &[2]]));
    let mut split_betas = loop_and_statement(alloc)?;
    split(&mut split_betas, &[0, 0])?;
    assert!(rt; are(&split_betas, &[&[0, 0], &[0, 1], &[0, 2], &[1]]));
    split(&mut split_betas, &[1])?;
    assert!(rt; are(&split_betas, &[&[0, 0], &[0, 1], &[0, 2], &[1], &[2]]));
    split_betas.fission(&[0], 2)?;
    assert!(rt; are(&split_betas, &[&[0, 0], &[0, 1], &[1, 0], &[2], &[3]]));
    Ok(())
}

#[test]
fn levels_and_children(rt: HostRuntime) -> Result<(), Fail> {
    let alloc = rt.alloc();
    let mut betas = loop_and_statement(alloc)?;
    assert_eq!(rt; betas.children(&[]), 2);
    assert_eq!(rt; betas.children(&[0]), 2);
    assert_eq!(rt; betas.children(&[0, 0]), 0);
    assert_eq!(rt; betas.children(&[1]), 0);
    assert_eq!(rt; betas.children(&[7]), 0);
    assert!(rt; betas.vector(3).is_none());
    betas.insert_level(&[0], 1)?;
    assert!(rt; are(&betas, &[&[0, 0, 0], &[0, 0, 1], &[1]]));
    Ok(())
}

/// The calls that a table of refusals names.
#[derive(Clone, Copy)]
enum Call {
    Fission(u32),
    Fuse,
    Reorder,
    Split,
}

/// The call with this prefix, and for a reorder this order.
fn answer(betas: &mut Betas, call: Call, prefix: &[u32], order: &[u32]) -> Result<(), BetaFail> {
    match call {
        Call::Fission(first) => betas.fission(prefix, first),
        Call::Fuse => betas.fuse(prefix),
        Call::Reorder => betas.reorder(prefix, order),
        Call::Split => split(betas, prefix),
    }
}

#[test]
fn refusals_in_their_order(rt: HostRuntime) -> Result<(), Fail> {
    let mut betas = loop_and_statement(rt.alloc())?;
    let cases: [(Call, &[u32], &[u32], BetaFail); 23] = [
        (Call::Fission(0), &[2], &[], BetaFail::NoBeta),
        (Call::Fission(1), &[0, 2], &[], BetaFail::NoBeta),
        (Call::Fission(0), &[], &[], BetaFail::NotALoop),
        (Call::Fission(0), &[1], &[], BetaFail::NotALoop),
        (Call::Fission(1), &[0, 0], &[], BetaFail::NotALoop),
        (Call::Fission(0), &[0], &[], BetaFail::BadArgument),
        (Call::Fission(2), &[0], &[], BetaFail::BadArgument),
        (Call::Fission(u32::MAX), &[0], &[], BetaFail::BadArgument),
        (Call::Fuse, &[2], &[], BetaFail::NoBeta),
        (Call::Fuse, &[1], &[], BetaFail::NoBeta),
        (Call::Fuse, &[0, 1], &[], BetaFail::NoBeta),
        (Call::Fuse, &[u32::MAX], &[], BetaFail::NoBeta),
        (Call::Fuse, &[], &[], BetaFail::NotALoop),
        (Call::Fuse, &[0], &[], BetaFail::NotALoop),
        (Call::Fuse, &[0, 0], &[], BetaFail::NotALoop),
        (Call::Reorder, &[2], &[7], BetaFail::NoBeta),
        (Call::Reorder, &[1], &[7], BetaFail::NotALoop),
        (Call::Reorder, &[], &[0], BetaFail::BadArgument),
        (Call::Reorder, &[], &[0, 0], BetaFail::BadArgument),
        (Call::Reorder, &[0], &[0, 2], BetaFail::BadArgument),
        (Call::Split, &[2], &[], BetaFail::NoBeta),
        (Call::Split, &[0], &[], BetaFail::BadArgument),
        (Call::Split, &[], &[], BetaFail::BadArgument),
    ];
    for (call, prefix, order, wanted) in cases {
        assert_eq!(rt; answer(&mut betas, call, prefix, order), Err(wanted));
    }
    assert!(rt; are(&betas, &[&[0, 0], &[0, 1], &[1]]));
    Ok(())
}

#[test]
fn no_statements(rt: HostRuntime) -> Result<(), Fail> {
    let mut betas = Betas::dense(rt.alloc(), &List::new(rt.alloc()))?;
    assert_eq!(rt; betas.len(), 0);
    assert_eq!(rt; betas.children(&[]), 0);
    assert_eq!(rt; betas.fission(&[], 1), Err(BetaFail::NoBeta));
    assert_eq!(rt; betas.fuse(&[]), Err(BetaFail::NoBeta));
    assert_eq!(rt; betas.reorder(&[], &[]), Err(BetaFail::NoBeta));
    assert_eq!(rt; split(&mut betas, &[]), Err(BetaFail::NoBeta));
    Ok(())
}

/// The first entry of the vector at place `k`.
fn first_entry(betas: &Betas, k: usize) -> Option<u32> {
    match betas.vector(k) {
        Some([first, ..]) => Some(*first),
        _ => None,
    }
}

#[test]
fn many_statements(rt: HostRuntime) -> Result<(), Fail> {
    let mut betas = loop_and_statement(rt.alloc())?;
    for _ in 0..300 {
        split(&mut betas, &[1])?;
    }
    assert_eq!(rt; betas.len(), 303);
    assert_eq!(rt; betas.children(&[]), 302);
    assert_eq!(rt; first_entry(&betas, 3), Some(2));
    assert_eq!(rt; first_entry(&betas, 302), Some(301));
    Ok(())
}
