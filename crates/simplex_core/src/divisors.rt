//! Greatest common divisors, division without a remainder, and sums of two products.

// No number of 64 bits takes more steps to its greatest common divisor with another.
const MOST_STEPS: usize = 128;

/// A common divisor of a row. Numbers that it divides are multiplied by the inverse of its odd part modulo
/// 2^64, which is much quicker than a division.
#[derive(Clone, Copy)]
pub struct Divisor {
    value: u64,
    odd: u64,
    twos: u32,
    inverse: u64,
}

impl Divisor {
    /// The divisor of this value, which is not 0.
    pub fn new(value: u64) -> Divisor {
        let twos = value.trailing_zeros();
        let odd = value.wrapping_shr(twos);
        Divisor {
            value,
            odd,
            twos,
            inverse: inverse(odd),
        }
    }

    /// The value of the divisor.
    pub fn value(self) -> u64 {
        self.value
    }

    /// Whether the divisor divides `number`.
    pub fn divides(self, number: u64) -> bool {
        let rest = number.wrapping_shr(self.twos);
        let quotient = rest.wrapping_mul(self.inverse);
        let product = u128::from(quotient).wrapping_mul(u128::from(self.odd));
        product == u128::from(rest) && rest.wrapping_shl(self.twos) == number
    }

    /// The quotient of a number that the divisor divides, where it fits a cell.
    pub fn quotient(self, number: i128) -> Option<i64> {
        match narrow(number) {
            Some(small) => Some(
                small
                    .wrapping_shr(self.twos)
                    .wrapping_mul(self.inverse.cast_signed()),
            ),
            None => narrow(number.checked_div(i128::from(self.value))?),
        }
    }

    /// The greatest common divisor of this one and `number`.
    pub fn common(self, number: u64) -> Divisor {
        if self.divides(number) {
            return self;
        }
        Divisor::new(gcd(number, self.value))
    }
}

// The inverse of an odd number modulo 2^64. The first has five bits right, and each step doubles them.
fn inverse(odd: u64) -> u64 {
    let mut inverse = odd.wrapping_mul(3) ^ 2;
    for _ in 0..4 {
        inverse = inverse.wrapping_mul(2u64.wrapping_sub(odd.wrapping_mul(inverse)));
    }
    inverse
}

/// The greatest common divisor, by differences of odd numbers.
pub fn gcd(first: u64, second: u64) -> u64 {
    if first == 0 {
        return second;
    }
    if second == 0 {
        return first;
    }
    let twos = (first | second).trailing_zeros();
    let mut a = first.wrapping_shr(first.trailing_zeros());
    let mut b = second.wrapping_shr(second.trailing_zeros());
    for _ in 0..MOST_STEPS {
        if a == b {
            return a.wrapping_shl(twos);
        }
        let rest = a.abs_diff(b);
        b = a.min(b);
        a = rest.wrapping_shr(rest.trailing_zeros());
    }
    1
}

/// The greatest common divisor, by 64 bits as soon as these are enough.
pub fn gcd_wide(first: u128, second: u128) -> u128 {
    let mut a = first;
    let mut b = second;
    while b != 0 {
        if a < 1 << 64 && b < 1 << 64 {
            return u128::from(gcd(a as u64, b as u64));
        }
        let rest = a % b;
        a = b;
        b = rest;
    }
    a
}

/// The sum `f a + h b`, which 128 bits hold.
pub fn sum_of_products(f: i64, a: i64, h: i64, b: i64) -> i128 {
    let first = i128::from(f).wrapping_mul(i128::from(a));
    let second = i128::from(h).wrapping_mul(i128::from(b));
    first.wrapping_add(second)
}

/// The number as a cell; `None` where its absolute value passes 2^63 - 1.
pub fn narrow(value: i128) -> Option<i64> {
    if value < 1 << 63 && value > -(1 << 63) {
        Some(value as i64)
    } else {
        None
    }
}
