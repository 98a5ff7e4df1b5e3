//! What a line says without its comment, and the words of a line.

ghost use Rattle.std.specs.Prelude.{◌≡◌, ◌≤◌, [], drop, length, MatchOption, not, ◌==◌};
ghost use Rattle.std.specs.List.{prefix_len};
ghost use Rattle.suite_base.specs.Lines.{is_blank};
ghost use Rattle.suite_base.specs.Words.{content, words, FirstWord};

use crate::line_cursors::{is_blank_byte, trimmed, trimmed_front};

/// The content of `line`: without the part from the first `#` on, and without the blanks at both
/// ends of what is left.
pub fn content_line(line: &[u8]) -> &[u8]
    ensures { result.now ≡ content line.now }
{
    let (front, _) = line.split_at(comment_start(line));
    trimmed(front)
}

// The number of bytes before the first `#`.
fn comment_start(line: &[u8]) -> usize
    ensures { result ≡ prefix_len (λ b. not (b == 35)) line.now }
{
    line.iter().take_while(|b| **b != b'#').count()
}

/// Where the first word at or after `from` begins and ends, as places from 0; `None` exactly where
/// only blanks follow. `from` is at most the length.
pub fn next_word(line: &[u8], from: usize) -> Option<(usize, usize)>
    requires { from ≤ length line.now }
    ensures { MatchOption result (words (drop from line.now) ≡ []) (λ word. FirstWord line.now from word.0 word.1) }
{
    let (_, rest) = line.split_at(from);
    let rest = trimmed_front(rest);
    if rest.is_empty() {
        return None;
    }
    let start = line.len() - rest.len();
    Some((start, start + word_length(rest)))
}

// The number of bytes before the first blank.
fn word_length(text: &[u8]) -> usize
    ensures { result ≡ prefix_len (λ b. not (is_blank b)) text.now }
{
    text.iter().take_while(|b| !is_blank_byte(**b)).count()
}
