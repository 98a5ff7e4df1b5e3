//! The size of the number that digits stand for.

ghost use Rattle.std.specs.Prelude.{◌≡◌, ◌-◌};
ghost use Rattle.c_lexer.specs.Symbols.{value_from};
ghost use Rattle.region_rules.specs.Facts.{size_of, size_with};

use crate::facts::Size;

// The size of one digit.
#[tactic(auto, using(crate::proofs::Sizes::zero_size, crate::proofs::Sizes::one_size, crate::proofs::Sizes::large_size))]
fn digit_size(digit: u8) -> Size
    ensures { result ≡ size_of (digit - 48) }
{
    let value = digit.saturating_sub(b'0');
    if value == 0 {
        return Size::Zero;
    }
    if value == 1 {
        return Size::One;
    }
    Size::Larger
}

// The size of a number with one digit more.
fn with_digit(size: Size, digit: u8) -> Size
    ensures { result ≡ size_with size (digit - 48) }
{
    match size {
        Size::Zero => digit_size(digit),
        Size::One => Size::Larger,
        Size::Larger => Size::Larger,
    }
}

/// The size of the number that digits stand for.
pub fn number_size(digits: &[u8]) -> Size
    ensures { result ≡ size_of (value_from 0 digits.now) }
{
    let mut size = Size::Zero;
    for digit in digits {
        size = with_digit(size, *digit);
    }
    size
}
