//! Words that say how many loops a demo has.

ghost use Rattle.std.specs.Prelude.{◌≡◌, ℕ, MatchOption};
ghost use Rattle.std.specs.Fmt.{decimal};
ghost use Rattle.std.specs.Str.{bytes_eq};
ghost use Rattle.suite_cli.specs.Commands as spec;

use itoa::Buffer;

/// The number of loops that the word says: decimal digits without a leading zero, from 1 to 32. `None` exactly where it
/// says none.
pub fn loop_count(word: &str) -> Option<u32>
    ensures { MatchOption result ((k : ℕ) → ¬ spec.IsLoopWord word.now k) (spec.IsLoopWord word.now) }
{
    for k in 1..33 {
        if is_decimal(word, k) {
            return Some(k);
        }
    }
    None
}

// Whether the word is this number in decimal digits.
fn is_decimal(word: &str, number: u32) -> bool
    ensures { result ≡ bytes_eq word.now (decimal number) }
{
    let mut digits = Buffer::new();
    word == digits.format(number)
}
