//! A coefficient: an integer whose absolute value is below 2^127, so that its negative is one too.

ghost use Rattle.std.specs.Prelude.{◌≡◌, ◌<◌, ◌^◌, negsuc, pos, neg_ℤ, unsigned_abs, MatchOption, IsTrue, ◌↔◌};
ghost use Rattle.std.specs.Int.{int_signum};

use std::marker::Model;

/// An integer from `-(2^127 - 1)` to `2^127 - 1`. Contracts see the integer.
#[derive(Clone, Copy, Debug, PartialEq, Eq, Hash)]
pub struct Coeff {
    value: i128,
}

impl Model for Coeff {
    ghost use Rattle.std.specs.Prelude.{ℤ, ◌<◌, ◌^◌, unsigned_abs};
    ghost use Rattle.std.specs.Coded.{coded_ℤ};

    ghost Value = { ℤ };

    ghost coded = { coded_ℤ };

    ghost view = { λ c. c.value };

    ghost invariant = { λ c. unsigned_abs c.value < 2 ^ 127 };

    ghost inverse = { λ z. record { value = z } };
}

impl Coeff {
    /// The coefficient 0.
    pub const ZERO: Coeff = Coeff { value: 0 };

    /// The coefficient 1.
    pub const ONE: Coeff = Coeff { value: 1 };

    /// The coefficient `n`; `None` exactly for `-2^127`.
    pub fn new(n: i128) -> Option<Coeff>
        ensures answer { MatchOption result (n ≡ neg_ℤ (pos (2 ^ 127))) (λ c. c ≡ n) }
        ensures range { MatchOption result (n ≡ neg_ℤ (pos (2 ^ 127))) (λ c. unsigned_abs n < 2 ^ 127) }
    {
        if n == i128::MIN {
            None
        } else {
            Some(Coeff { value: n })
        }
    }

    /// The coefficient `n`, whose absolute value is known to be below 2^127.
    pub fn bounded(n: i128) -> Coeff
        requires { unsigned_abs n < 2 ^ 127 }
        ensures { result ≡ n }
    {
        Coeff { value: n }
    }

    /// The negative of the coefficient, which is a coefficient too.
    pub fn negated(self) -> Coeff
        ensures { result ≡ neg_ℤ self }
    {
        Coeff { value: -self.value }
    }

    /// Whether the coefficient is 0.
    pub fn is_zero(self) -> bool
        ensures answer { IsTrue result ↔ self ≡ pos 0 }
        ensures range { unsigned_abs self < 2 ^ 127 }
    {
        self.value == 0
    }

    /// The sign of the coefficient: -1, 0 or 1.
    pub fn sign(self) -> i8
        ensures { result ≡ int_signum self }
    {
        if self.value > 0 {
            1
        } else if self.value < 0 {
            -1
        } else {
            0
        }
    }

    /// The integer that the coefficient holds.
    pub fn value(self) -> i128
        ensures answer { result ≡ self }
        ensures range { unsigned_abs self < 2 ^ 127 }
    {
        self.value
    }
}

impl Default for Coeff {
    fn default() -> Coeff
        ensures { result ≡ pos 0 }
    {
        Coeff { value: 0 }
    }
}
