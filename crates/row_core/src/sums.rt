//! A sum of products of coefficients that is given up as soon as it might leave the range.

ghost use Rattle.std.specs.Prelude.{◌≡◌, ◌<◌, ◌≤◌, ◌+◌, ◌*◌, ◌^◌, pos, ◌+ℤ◌, ◌*ℤ◌, unsigned_abs, MatchOption};
ghost use Rattle.row_core.specs.Sums.{no_weight};

use crate::coeffs::Coeff;
use std::marker::Model;

/// A sum of products, with its weight: the sum of their absolute values. The weight is below 2^127,
/// so the value is a coefficient, in whatever order the products came. Contracts see both.
#[derive(Drop)]
pub struct Sum {
    value: i128,
    weight: u128,
}

impl Model for Sum {
    ghost use Rattle.std.specs.Prelude.{◌<◌, ◌≤◌, ◌^◌, ◌+ℤ◌, unsigned_abs};
    ghost use Rattle.row_core.specs.Sums.{Weighed, IsLight};

    ghost Value = { Weighed };

    ghost view = { λ s. record { value = s.value; weight = s.weight } };

    ghost invariant = { λ s. IsLight s.value s.weight };
}

impl Sum {
    /// The sum of no products.
    pub fn zero() -> Sum
        ensures { result ≡ no_weight }
    {
        Sum {
            value: 0,
            weight: 0,
        }
    }

    /// The sum with the product of `m` and `x` added; `None` exactly where its weight passes
    /// 2^127 - 1.
    pub fn add(self, m: Coeff, x: Coeff) -> Option<Sum>
        ensures { MatchOption result (2 ^ 127 ≤ self.weight + unsigned_abs (m *ℤ x))
            (λ s. (s.value ≡ self.value +ℤ (m *ℤ x)) × (s.weight ≡ self.weight + unsigned_abs (m *ℤ x)) × (s.weight < 2 ^ 127)) }
    {
        let m = m.value();
        let x = x.value();
        let weight = weight_with(self.weight, m, x)?;
        Some(Sum {
            value: value_with(self.value, m, x, weight),
            weight,
        })
    }

    /// The value of the sum.
    pub fn value(&self) -> Coeff
        ensures { result ≡ self.now.value }
    {
        Coeff::bounded(self.value)
    }
}

// `None` exactly where the weight with this product passes 2^127 - 1.
fn weight_with(weight: u128, m: i128, x: i128) -> Option<u128>
    requires { weight < 2 ^ 127 }
    ensures { MatchOption result (2 ^ 127 ≤ weight + unsigned_abs (m *ℤ x))
        (λ w. (w ≡ weight + unsigned_abs (m *ℤ x)) × (w < 2 ^ 127)) }
{
    let product = m.unsigned_abs().checked_mul(x.unsigned_abs())?;
    let sum = weight.checked_add(product)?;
    if sum < 1 << 127 { Some(sum) } else { None }
}

// The value with this product, which the weight keeps in range.
fn value_with(value: i128, m: i128, x: i128, weight: u128) -> i128
    requires within { unsigned_abs value + unsigned_abs (m *ℤ x) ≤ weight }
    requires light { weight < 2 ^ 127 }
    ensures { result ≡ value +ℤ (m *ℤ x) }
{
    value + m * x
}
