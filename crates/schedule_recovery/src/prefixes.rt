//! Beta prefixes, as the vectors of a script.

ghost use Rattle.std.specs.Prelude.{◌≡◌, [], ◌∷◌, ◌++◌, pos, IfOk};
ghost use Rattle.chlore_recover.specs.Strategy.{as_prefix};

use clay_script::Vector;
use row_core::Coeff;
use std::alloc::Global;
use suite_base::NoMemory;

// The prefix with these entries, with room for so many more.
fn prefix_with_room(alloc: Global, entries: &[u32], more: usize) -> Result<Vector, NoMemory>
    ensures { IfOk result (λ made. made ≡ as_prefix entries.now) }
{
    let mut made = Vector::with_capacity(alloc, entries.len().saturating_add(more))?;
    for entry in entries {
        made.push(Coeff::bounded(*entry as i128))?;
    }
    Ok(made)
}

/// The prefix with these entries.
pub fn prefix_of(alloc: Global, entries: &[u32]) -> Result<Vector, NoMemory>
    ensures { IfOk result (λ made. made ≡ as_prefix entries.now) }
{
    prefix_with_room(alloc, entries, 0)
}

/// The prefix of a loop that is in no other loop.
pub fn outer_prefix(alloc: Global, number: u32) -> Result<Vector, NoMemory>
    ensures { IfOk result (λ made. made ≡ pos number ∷ []) }
{
    let mut made = Vector::with_capacity(alloc, 1)?;
    made.push(Coeff::bounded(number as i128))?;
    Ok(made)
}

/// The prefix of a child of the loop with these entries.
pub fn child_prefix(alloc: Global, entries: &[u32], child: u32) -> Result<Vector, NoMemory>
    ensures { IfOk result (λ made. made ≡ as_prefix (entries.now ++ child ∷ [])) }
{
    let mut made = prefix_with_room(alloc, entries, 1)?;
    made.push(Coeff::bounded(child as i128))?;
    Ok(made)
}

/// The numbers of children as an order.
pub fn order_of(alloc: Global, numbers: &[usize]) -> Result<Vector, NoMemory>
    ensures { IfOk result (λ made. made ≡ as_prefix numbers.now) }
{
    let mut made = Vector::with_capacity(alloc, numbers.len())?;
    for number in numbers {
        made.push(Coeff::bounded(*number as i128))?;
    }
    Ok(made)
}

/// A copy of coefficients.
pub fn copied(alloc: Global, numbers: &[Coeff]) -> Result<Vector, NoMemory>
    ensures { IfOk result (λ made. made ≡ numbers.now) }
{
    let mut made = Vector::with_capacity(alloc, numbers.len())?;
    for number in numbers {
        made.push(*number)?;
    }
    Ok(made)
}
