//! Number words: an optional `-` and decimal digits, read within the range of a coefficient.

ghost use Rattle.std.specs.Prelude.{◌≡◌, ◌+◌, ◌*◌, ◌-◌, ◌^◌, ◌<◌, ◌≤◌, true, false, MatchOption};
ghost use Rattle.suite_base.specs.Numbers.{is_digit, are_digits, all_digits, digits_after, with_sign, digits_read, number_read, IsInRange};

/// What a word is as a number.
#[derive(Clone, Copy, Debug, PartialEq, Eq)]
pub enum NumberRead {
    /// The number, whose absolute value is below 2^127.
    Value(i128),
    /// A number word whose value is outside that range.
    TooLarge,
    /// No number word.
    NotNumber,
}

/// Reads a number word: an optional `-` and one or more decimal digits, leading zeros too.
pub fn read_number(word: &[u8]) -> NumberRead
    ensures answer { result ≡ number_read word.now }
    ensures range { IsInRange result }
{
    match word {
        [b'-', digits @ ..] => read_digits(digits, true),
        _ => read_digits(word, false),
    }
}

// Reads digits as a number, negated where `negative`.
fn read_digits(digits: &[u8], negative: bool) -> NumberRead
    ensures answer { result ≡ digits_read negative digits.now }
    ensures range { IsInRange result }
{
    if !are_all_digits(digits) {
        return NumberRead::NotNumber;
    }
    match magnitude(digits) {
        None => NumberRead::TooLarge,
        Some(size) => NumberRead::Value(signed(size, negative)),
    }
}

// `size`, negated where `negative`.
fn signed(size: u128, negative: bool) -> i128
    requires { size < 2 ^ 127 }
    ensures { result ≡ with_sign negative size }
{
    let value = size as i128;
    if negative { -value } else { value }
}

/// Whether `byte` is a decimal digit.
pub fn is_digit_byte(byte: u8) -> bool
    ensures { result ≡ is_digit byte }
{
    b'0' <= byte && byte <= b'9'
}

/// Whether `digits` are digits, and at least one.
pub fn are_all_digits(digits: &[u8]) -> bool
    ensures { result ≡ are_digits digits.now }
{
    if digits.is_empty() {
        return false;
    }
    let mut rest = digits;
    while let [first, after @ ..] = rest {
        if !is_digit_byte(*first) {
            return false;
        }
        rest = after;
    }
    true
}

// The number that `digits` write; `None` exactly where it is 2^127 or more.
#[tactic(auto, using(crate::proofs::Digits::le_digits_after))]
fn magnitude(digits: &[u8]) -> Option<u128>
    requires { all_digits digits.now ≡ true }
    ensures { MatchOption result (2 ^ 127 ≤ digits_after 0 digits.now) (λ size. (size ≡ digits_after 0 digits.now) × (size < 2 ^ 127)) }
{
    let mut size: u128 = 0;
    let mut rest = digits;
    while let [first, after @ ..] = rest {
        match with_digit(size, *first - b'0') {
            None => return None,
            Some(more) => size = more,
        }
        rest = after;
    }
    Some(size)
}

// `size` with one more digit at its end; `None` exactly where that is 2^127 or more.
fn with_digit(size: u128, digit: u8) -> Option<u128>
    requires { digit < 10 }
    ensures { MatchOption result (2 ^ 127 ≤ size * 10 + digit) (λ more. (more ≡ size * 10 + digit) × (more < 2 ^ 127)) }
{
    let most = i128::MAX as u128;
    let digit = digit as u128;
    if size > (most - digit) / 10 {
        return None;
    }
    Some(size * 10 + digit)
}
