//! The bytes of names.

ghost use Rattle.std.specs.Prelude.{◌≡◌};
ghost use Rattle.suite_base.specs.Bytes as spec;

use crate::numbers::is_digit_byte;

/// Whether `byte` is a letter, small or capital.
pub fn is_letter_byte(byte: u8) -> bool
    ensures { result ≡ spec.is_letter byte }
{
    byte.is_ascii_uppercase() || byte.is_ascii_lowercase()
}

/// Whether `byte` begins a name: it is a letter or `_`.
pub fn begins_name_byte(byte: u8) -> bool
    ensures { result ≡ spec.begins_name byte }
{
    is_letter_byte(byte) || byte == b'_'
}

/// Whether `byte` goes on a name: it is a letter, `_` or a digit.
pub fn is_name_byte(byte: u8) -> bool
    ensures { result ≡ spec.is_name_byte byte }
{
    begins_name_byte(byte) || is_digit_byte(byte)
}
