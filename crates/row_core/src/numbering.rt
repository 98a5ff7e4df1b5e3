//! The dense numbering of vectors of coefficients: the vectors are sorted, and each is numbered from
//! the one before it.

ghost use Rattle.std.specs.Prelude.{◌≡◌, ℕ, ◌<◌, ◌^◌, [], ◌++◌, length, map, slice_get, Some, All, Contains, IfOk};
ghost use Rattle.std.specs.Cmp.Lexicographic.{slice_cmp};
ghost use Rattle.std.specs.List.Sorted.{IsSorted};
ghost use Rattle.std.specs.Ordering.{int_cmp, int_eq};
ghost use Rattle.row_core.specs.Dense.{dense_of};
ghost use Rattle.row_core.specs.DenseOrder.{numbered_after};

use crate::coeffs::Coeff;
use std::alloc::Global;
use std::cmp::Ordering;
use suite_base::{List, NoMemory};

// The lexicographic order of two vectors.
fn compare(left: &[Coeff], right: &[Coeff]) -> Ordering
    ensures { result ≡ slice_cmp int_cmp left.now right.now }
{
    let mut left = left;
    let mut right = right;
    while let [x, xs @ ..] = left {
        let [y, ys @ ..] = right else {
            return Ordering::Greater;
        };
        match x.value().cmp(&y.value()) {
            Ordering::Equal => {
                left = xs;
                right = ys;
            }
            decided => return decided,
        }
    }
    0usize.cmp(&right.len())
}

// All of `vectors`, each with its place.
fn placed_vectors<'a>(
    alloc: Global,
    vectors: &'a List<List<Coeff>>,
) -> Result<Vec<(usize, &'a [Coeff])>, NoMemory>
    ensures each { IfOk result (λ placed. All (λ p. slice_get vectors.now p.0 ≡ Some p.1.now) placed.items) }
    ensures all { IfOk result (λ placed. (k : ℕ) → k < length vectors.now → Contains (map (λ p. p.0) placed.items) k) }
{
    let mut placed = Vec::new(alloc);
    for vector in vectors.as_slice() {
        placed.push((placed.len(), vector.as_slice()))?;
    }
    Ok(placed)
}

// All of `vectors`, each with its place, in lexicographic order.
fn sorted_vectors<'a>(
    alloc: Global,
    vectors: &'a List<List<Coeff>>,
) -> Result<Vec<(usize, &'a [Coeff])>, NoMemory>
    ensures each { IfOk result (λ placed. All (λ p. slice_get vectors.now p.0 ≡ Some p.1.now) placed.items) }
    ensures all { IfOk result (λ placed. (k : ℕ) → k < length vectors.now → Contains (map (λ p. p.0) placed.items) k) }
    ensures sorted { IfOk result (λ placed. IsSorted (λ p q. slice_cmp int_cmp p.1.now q.1.now) placed.items) }
{
    let mut placed = placed_vectors(alloc, vectors)?;
    placed.sort_by(|left, right| compare(left.1, right.1))?;
    Ok(placed)
}

// `numbers` and then a zero for each entry of `vector`.
fn with_zeros(numbers: List<u32>, vector: &[Coeff]) -> Result<List<u32>, NoMemory>
    ensures { IfOk result (λ made. made ≡ numbers ++ map (λ _. 0) vector.now) }
{
    let mut made = numbers;
    for _entry in vector {
        made.push(0)?;
    }
    Ok(made)
}

// Whether two coefficients are equal.
fn same(left: Coeff, right: Coeff) -> bool
    ensures { result ≡ int_eq left right }
{
    left.value() == right.value()
}

// The numbers of `vector`, from those of the greatest vector before it.
fn next_numbers(
    alloc: Global,
    former: &[Coeff],
    numbers: &[u32],
    vector: &[Coeff],
) -> Result<List<u32>, NoMemory>
    requires { All (λ n. n < 2 ^ 32) (numbered_after former.now numbers.now vector.now) }
    ensures { IfOk result (λ made. made ≡ numbered_after former.now numbers.now vector.now) }
{
    let mut made = List::with_capacity(alloc, vector.len())?;
    let mut former = former;
    let mut numbers = numbers;
    let mut vector = vector;
    while let [new, news @ ..] = vector {
        let [old, olds @ ..] = former else {
            return with_zeros(made, vector);
        };
        let [number, more @ ..] = numbers else {
            return with_zeros(made, vector);
        };
        if !same(*old, *new) {
            made.push(*number + 1)?;
            return with_zeros(made, news);
        }
        made.push(*number)?;
        former = olds;
        numbers = more;
        vector = news;
    }
    Ok(made)
}

// A copy of `numbers`.
fn copied(alloc: Global, numbers: &[u32]) -> Result<List<u32>, NoMemory>
    ensures { IfOk result (λ made. made ≡ numbers.now) }
{
    let mut made = List::with_capacity(alloc, numbers.len())?;
    for number in numbers {
        made.push(*number)?;
    }
    Ok(made)
}

// A list of `count` empty lists.
fn empty_lists(alloc: Global, count: usize) -> Result<List<List<u32>>, NoMemory>
    ensures { IfOk result (λ made. length made ≡ count) }
{
    let mut made = List::with_capacity(alloc, count)?;
    for i in 0..count {
        made.push(List::new(alloc))?;
    }
    Ok(made)
}

/// The dense numbering of `vectors`: each entry becomes the number of distinct lesser values at its
/// place among the vectors that agree with its own before that place. It needs fewer than 2^32 vectors.
pub fn dense_vectors(
    alloc: Global,
    vectors: &List<List<Coeff>>,
) -> Result<List<List<u32>>, NoMemory>
    requires { length vectors.now < 2 ^ 32 }
    ensures { IfOk result (λ made. made ≡ dense_of vectors.now) }
{
    let placed = sorted_vectors(alloc, vectors)?;
    let mut made = empty_lists(alloc, vectors.len())?;
    let mut former: &[Coeff] = &[];
    let mut numbers = List::new(alloc);
    for pair in placed.as_slice() {
        let (place, vector) = *pair;
        numbers = next_numbers(alloc, former, numbers.as_slice(), vector)?;
        made.set(place, copied(alloc, numbers.as_slice())?);
        former = vector;
    }
    Ok(made)
}
