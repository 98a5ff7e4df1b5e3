//! Tests of one coefficient.

ghost use Rattle.std.specs.Prelude.{◌≡◌, pos, int_lt, unsigned_abs};
ghost use Rattle.elim_core.specs.Elimination.{is_zero, turned};

use row_core::Coeff;

/// Whether a coefficient is 0.
pub fn is_zero(c: Coeff) -> bool
    ensures { result ≡ is_zero c }
{
    c.value() == 0
}

/// Whether a coefficient is above 0.
pub fn is_positive(c: Coeff) -> bool
    ensures { result ≡ int_lt (pos 0) c }
{
    c.value() > 0
}

/// Whether a coefficient is below 0.
pub fn is_negative(c: Coeff) -> bool
    ensures { result ≡ int_lt c (pos 0) }
{
    c.value() < 0
}

/// The absolute value of a coefficient.
pub fn absolute(c: Coeff) -> Coeff
    ensures { result ≡ pos (unsigned_abs c) }
{
    if c.value() < 0 { c.negated() } else { c }
}

/// Minus `b` times the sign of `a`.
pub fn turned(a: Coeff, b: Coeff) -> Coeff
    ensures { result ≡ turned a b }
{
    if is_negative(a) { b } else { b.negated() }
}
