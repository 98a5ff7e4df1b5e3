//! Products added to a sum, most of which are 0.

ghost use Rattle.std.specs.Prelude.{◌≡◌, ◌<◌, ◌≤◌, ◌+◌, ◌^◌, ◌+ℤ◌, ◌*ℤ◌, unsigned_abs, IfSome, MatchOption};

use row_core::{Coeff, Sum};

/// The sum with the product of `c` and `x` added, as `Sum::add` has it; nothing is to be done where one of them is 0.
pub fn with_product(sum: Sum, c: Coeff, x: Coeff) -> Option<Sum>
    ensures { MatchOption result (2 ^ 127 ≤ sum.weight + unsigned_abs (c *ℤ x))
        (λ s. (s.value ≡ sum.value +ℤ (c *ℤ x)) × (s.weight ≡ sum.weight + unsigned_abs (c *ℤ x)) × (s.weight < 2 ^ 127)) }
{
    if c.is_zero() || x.is_zero() {
        return Some(sum);
    }
    sum.add(c, x)
}

/// The sum with the product of `c` and `x` added, by 64 bits; `None` where these are not enough.
pub fn with_small_product(sum: i64, c: Coeff, x: Coeff) -> Option<i64>
    ensures { IfSome result (λ s. s ≡ sum +ℤ (c *ℤ x)) }
{
    if c.is_zero() {
        return Some(sum);
    }
    let (Ok(c), Ok(x)) = (i64::try_from(c.value()), i64::try_from(x.value())) else {
        return None;
    };
    sum.checked_add(c.checked_mul(x)?)
}
