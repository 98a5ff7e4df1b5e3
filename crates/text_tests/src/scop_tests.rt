//! What a SCoP that was read answers, and its text.

ghost use Rattle.std.specs.Prelude.{◌≡◌, ◌∷◌, [], true, IfOk, length};
ghost use Rattle.scop_core.specs.Printable.{arrays_name, is_kept};

use row_core::Coeff;
use scop_core::{Affine, Extension, Scop};
use scop_reader::read_scop;
use scop_writer::print_scop;
use std::alloc::Global;
use std::test::Fail;
use suite_base::{List, NoMemory, Text};

/// Two statements in one loop, with the betas 7, -3 and 7, 2, without bodies.
const PAIR: &[u8] = b"<OpenScop>\nC\nCONTEXT\n0 3 0 0 0 1\n0\n2\n\
3\nDOMAIN\n0 4 1 0 0 1\n\
SCATTERING\n3 7 3 1 0 1\n0 -1 0 0 0 0 7\n0 0 -1 0 1 0 0\n0 0 0 -1 0 0 -3\n\
WRITE\n2 6 2 1 0 1\n0 -1 0 0 0 1\n0 0 -1 1 0 0\n0\n\
3\nDOMAIN\n0 4 1 0 0 1\n\
SCATTERING\n3 7 3 1 0 1\n0 -1 0 0 0 0 7\n0 0 -1 0 1 0 0\n0 0 0 -1 0 0 2\n\
WRITE\n2 6 2 1 0 1\n0 -1 0 0 0 1\n0 0 -1 1 0 0\n0\n\
<arrays>\n2\n3 C\n1 C\n</arrays>\n</OpenScop>\n";

/// A SCoP with a union, a local, three accesses and kept extensions, in the layout.
const UNION: &[u8] = b"<OpenScop>\nC\nCONTEXT\n0 2 0 0 0 0\n0\n1\n5\n\
DOMAIN\n2\n1 4 1 0 1 0\n1 1 -4 0\n1 4 1 0 1 0\n1 1 -4 0\n\
SCATTERING\n3 6 3 1 0 0\n0 -1 0 0 0 0\n0 0 -1 0 1 0\n0 0 0 -1 0 0\n\
WRITE\n2 5 2 1 0 0\n0 -1 0 0 2\n0 0 -1 1 0\n\
MAY_WRITE\n2 5 2 1 0 0\n0 -1 0 0 2\n0 0 -1 1 0\n\
READ\n2 5 2 1 0 0\n0 -1 0 0 2\n0 0 -1 1 0\n\
2\n<body>\n1\ni1\nS1\n</body>\n<of_one>\n\t# kept \n</of_one>\n\
<of_all>\n\n</of_all>\n</OpenScop>\n";

/// The SCoP of a text; no memory stands in for a refusal.
fn scop_of(alloc: Global, text: &[u8]) -> Result<Scop, NoMemory> {
    if text.len() > 1000000 {
        return Err(NoMemory);
    }
    match read_scop(alloc, text) {
        Ok(scop) => Ok(scop),
        Err(_) => Err(NoMemory),
    }
}

/// Whether array `k` has this identifier and the name `C`.
fn has_array(scop: &Scop, k: usize, identifier: i128) -> bool {
    match scop.array(k) {
        Some(array) => array.0.value() == identifier && array.1.bytes() == b"C".as_slice(),
        None => false,
    }
}

/// Whether statement `k` has this text.
fn has_text(scop: &Scop, k: usize, text: &[u8]) -> bool {
    match scop.statement(k) {
        Some(statement) => statement.body.text.bytes() == text,
        None => false,
    }
}

/// Whether the first iterator of statement `k` has this name.
fn has_iterator(scop: &Scop, k: usize, name: &[u8]) -> bool {
    match scop.statement(k) {
        Some(statement) => match statement.body.iterators.get(0) {
            Some(first) => first.bytes() == name,
            None => false,
        },
        None => false,
    }
}

/// Whether extension `k` has this name and this first line.
fn has_extension(scop: &Scop, k: usize, name: &[u8], line: &[u8]) -> bool {
    match scop.extensions().get(k) {
        Some(extension) => match extension.lines.get(0) {
            Some(first) => extension.name.bytes() == name && first.bytes() == line,
            None => false,
        },
        None => false,
    }
}

/// Whether the vectors are `wanted`.
fn are(vectors: &List<List<u32>>, wanted: &[&[u32]]) -> bool {
    if vectors.len() != wanted.len() {
        return false;
    }
    for (k, vector) in wanted.iter().enumerate() {
        match vectors.get(k) {
            Some(found) if found.as_slice() == *vector => {}
            _ => return false,
        }
    }
    true
}

/// Whether the SCoP has the pair's language, context and no names or extensions.
fn has_whole(scop: &Scop) -> bool {
    scop.language().bytes() == b"C".as_slice()
        && scop.context().shape().parameters == 1
        && scop.parameters().is_none()
        && scop.extensions().len() == 0
}

/// Whether the SCoP has the pair's arrays.
fn has_arrays(scop: &Scop) -> bool {
    scop.array_count() == Some(2)
        && has_array(scop, 0, 3)
        && has_array(scop, 1, 1)
        && scop.array(2).is_none()
}

/// Whether the SCoP has the pair's statements, with default bodies.
fn has_statements(scop: &Scop) -> bool {
    scop.statement_count() == 2
        && scop.statements().len() == 2
        && has_text(scop, 0, b"S1")
        && has_text(scop, 1, b"S2")
        && has_iterator(scop, 1, b"i1")
        && scop.statement(2).is_none()
}

#[test]
fn answers_about_two_statements(rt: HostRuntime) -> Result<(), Fail> {
    let scop = scop_of(rt.alloc(), PAIR)?;
    assert!(rt; has_whole(&scop));
    assert!(rt; has_arrays(&scop));
    assert!(rt; has_statements(&scop));
    let betas = scop.dense_betas(rt.alloc())?;
    assert!(rt; are(&betas, &[&[0, 0], &[0, 1]]));
    Ok(())
}

/// The list of one text.
fn one_line(alloc: Global, line: &[u8]) -> Result<List<Text>, NoMemory>
    ensures { IfOk result (λ lines. lines ≡ line.now ∷ []) }
{
    let mut text = Text::new(alloc);
    text.push_bytes(line)?;
    let mut lines = List::new(alloc);
    lines.push(text)?;
    Ok(lines)
}

/// The SCoP with an extension of this name and one line.
fn noted(alloc: Global, scop: Scop, name: &[u8], line: &[u8]) -> Result<Scop, NoMemory>
    requires { is_kept arrays_name (record { name = name.now; lines = line.now ∷ [] }) ≡ true }
{
    let mut own = Text::new(alloc);
    own.push_bytes(name)?;
    let lines = one_line(alloc, line)?;
    match scop.with_extension(Extension { name: own, lines }) {
        Ok(extended) => Ok(extended),
        Err((_, failed)) => Err(failed),
    }
}

/// The SCoP with the line ` 3 ` in an extension `a`.
fn noted_again(alloc: Global, scop: Scop) -> Result<Scop, NoMemory> {
    noted(alloc, scop, b"a", b" 3 ")
}

/// The pair with an extension `a` and then one `b`.
fn noted_twice(alloc: Global) -> Result<Scop, NoMemory> {
    let scop = noted(alloc, scop_of(alloc, PAIR)?, b"a", b"1")?;
    noted(alloc, scop, b"b", b"2")
}

/// Whether the extensions have these names and first lines.
fn have_extensions(scop: &Scop, wanted: &[(&[u8], &[u8])]) -> bool {
    if scop.extensions().len() != wanted.len() {
        return false;
    }
    for (k, pair) in wanted.iter().enumerate() {
        if !has_extension(scop, k, pair.0, pair.1) {
            return false;
        }
    }
    true
}

#[test]
fn an_extension_takes_the_place_of_one_of_its_name(rt: HostRuntime) -> Result<(), Fail> {
    let scop = noted_twice(rt.alloc())?;
    let copy = scop.copy(rt.alloc())?;
    let again = noted_again(rt.alloc(), scop)?;
    assert!(rt; have_extensions(&again, &[(b"b", b"2"), (b"a", b" 3 ")]));
    assert!(rt; have_extensions(&copy, &[(b"a", b"1"), (b"b", b"2")]));
    assert!(rt; has_arrays(&copy));
    assert!(rt; has_statements(&copy));
    Ok(())
}

/// The value 2 i - 3 j + 5 f + 7 N + 11.
fn affine(alloc: Global) -> Result<Affine, NoMemory>
    ensures iterators { IfOk result (λ value. length value.iterators ≡ 2) }
    ensures floors { IfOk result (λ value. length value.floors ≡ 1) }
    ensures parameters { IfOk result (λ value. length value.parameters ≡ 1) }
{
    let two = Coeff::bounded(2);
    let minus_three = Coeff::bounded(-3);
    let five = Coeff::bounded(5);
    let seven = Coeff::bounded(7);
    Affine::new(
        alloc,
        &[two, minus_three],
        &[five],
        &[seven],
        Coeff::bounded(11),
    )
}

#[test]
fn coefficients_of_a_value(rt: HostRuntime) -> Result<(), Fail> {
    let value = affine(rt.alloc())?;
    assert_eq!(rt; value.iterator(0).value(), 2);
    assert_eq!(rt; value.iterator(1).value(), -3);
    assert_eq!(rt; value.floor(0).value(), 5);
    assert_eq!(rt; value.parameter(0).value(), 7);
    assert_eq!(rt; value.constant().value(), 11);
    Ok(())
}

#[test]
fn a_text_in_the_layout_is_printed_unchanged(rt: HostRuntime) -> Result<(), Fail> {
    let scop = scop_of(rt.alloc(), UNION)?;
    let text = print_scop(rt.alloc(), &scop)?;
    assert!(rt; text.bytes() == UNION);
    Ok(())
}
