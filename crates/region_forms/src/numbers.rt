//! Integers by their digits.

ghost use Rattle.std.specs.Prelude.{◌≡◌, pos};
ghost use Rattle.c_lexer.specs.Symbols.{value_from};
ghost use Rattle.clan_rows.specs.Fitting.{in_range};

use row_core::Coeff;

// The greatest coefficient.
const LIMIT: u128 = (1 << 127) - 1;

/// The integer that decimal digits stand for, where it is in range.
pub fn integer(digits: &[u8]) -> Option<Coeff>
    ensures { result ≡ in_range (pos (value_from 0 digits.now)) }
{
    let mut value: u128 = 0;
    for b in digits {
        if value > LIMIT / 10 {
            return None;
        }
        value = 10 * value + u128::from(b.saturating_sub(b'0'));
    }
    in_range(value)
}

// The coefficient of this value, where it is in range.
fn in_range(value: u128) -> Option<Coeff>
    ensures { result ≡ in_range (pos value) }
{
    if value > LIMIT {
        return None;
    }
    match i128::try_from(value) {
        Ok(value) => Some(Coeff::bounded(value)),
        Err(_) => None,
    }
}
