//! Sums and products of coefficients that are given up only where they are out of range themselves.

ghost use Rattle.std.specs.Prelude.{◌≡◌, pos, negsuc, cond, ◌+ℤ◌, ◌*ℤ◌, neg_ℤ, unsigned_abs};
ghost use Rattle.clan_rows.specs.Fitting.{IntegerFits};

use row_core::{Coeff, Sum};

/// The sum of two integers; `None` exactly where it is out of range.
pub fn sum_of(a: i128, b: i128) -> Option<Coeff>
    ensures { IntegerFits (a +ℤ b) result }
{
    Coeff::new(a.checked_add(b)?)
}

/// The sum of a coefficient and an integer; `None` exactly where it is out of range.
pub fn sum_with(a: Coeff, z: i128) -> Option<Coeff>
    ensures { IntegerFits (a +ℤ z) result }
{
    sum_of(a.value(), z)
}

/// The product of two coefficients; `None` exactly where it is out of range.
pub fn product_of(a: Coeff, b: Coeff) -> Option<Coeff>
    ensures { IntegerFits (a *ℤ b) result }
{
    let product = Sum::zero().add(a, b)?;
    Some(product.value())
}

// The coefficient, less 1 where it is `strict`.
fn lessened(a: Coeff, strict: bool) -> i128
    ensures { result ≡ a +ℤ cond strict (negsuc 0) (pos 0) }
{
    if strict { a.value() - 1 } else { a.value() }
}

/// The difference of two coefficients, less 1 where it is `strict`; `None` exactly where it is out of
/// range.
pub fn difference_of(a: Coeff, b: Coeff, strict: bool) -> Option<Coeff>
    ensures { IntegerFits ((a +ℤ cond strict (negsuc 0) (pos 0)) +ℤ neg_ℤ b) result }
{
    sum_of(lessened(a, strict), -b.value())
}

/// The coefficient's absolute value.
pub fn size_of(a: Coeff) -> Coeff
    ensures { result ≡ pos (unsigned_abs a) }
{
    if a.value() < 0 { a.negated() } else { a }
}
