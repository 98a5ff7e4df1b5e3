//! A long region of C, which is timed through lexer and parser.

ghost use Rattle.std.specs.Prelude.{◌≡◌, ◌<◌, ◌≤◌, ◌-◌, ◌^◌, length, IfSome};
ghost use Rattle.suite_base.specs.Places.{place_at};

use c_lexer::{Lexer, Span, find_region};
use c_parser::parse_region;
use std::alloc::Global;
use suite_base::{NoMemory, Text};

const ASSIGNMENT: &[u8] = b"  A[i] = B[i + 1] * 2;\n";

const ASSIGNMENTS: usize = 729_000;

// The region of a text, where it has one and the text is as short as the lexer wants it.
fn region_span(bytes: &[u8]) -> Option<Span>
    ensures small { IfSome result (λ span. length bytes.now < 2 ^ 32 - 1) }
    ensures order { IfSome result (λ span. span.from ≤ span.to) }
    ensures within { IfSome result (λ span. span.to ≤ length bytes.now) }
    ensures placed { IfSome result (λ span. span.first ≡ place_at bytes.now span.from) }
{
    if bytes.len() >= 4_294_967_295 {
        return None;
    }
    match find_region(bytes) {
        Ok(span) => Some(span),
        Err(_) => None,
    }
}

/// A text of 16 MiB, less a little: a region of assignments.
pub fn assignments(alloc: Global) -> Result<Text, NoMemory> {
    let mut text = Text::new(alloc);
    text.push_bytes(b"#pragma scop\n")?;
    for _ in 0..ASSIGNMENTS {
        text.push_bytes(ASSIGNMENT)?;
    }
    text.push_bytes(b"#pragma endscop\n")?;
    Ok(text)
}

/// The number of tokens of the text's region, up to the first place without one.
pub fn token_count(text: &Text) -> u64 {
    match region_span(text.bytes()) {
        Some(span) => tokens_in(text.bytes(), span),
        None => 0,
    }
}

// How many tokens a region has.
fn tokens_in(bytes: &[u8], span: Span) -> u64
    requires small { length bytes.now < 2 ^ 32 - 1 }
    requires order { span.from ≤ span.to }
    requires within { span.to ≤ length bytes.now }
    requires placed { span.first ≡ place_at bytes.now span.from }
{
    let mut lexer = Lexer::new(bytes, span);
    let mut count: u64 = 0;
    for _ in 0..bytes.len() {
        match lexer.next() {
            Ok(Some(_)) => count = count.saturating_add(1),
            _ => return count,
        }
    }
    count
}

/// The number of statements of the text's region; 0 where it is refused.
pub fn statement_count(alloc: Global, text: &Text) -> usize {
    match region_span(text.bytes()) {
        Some(span) => match parse_region(alloc, text.bytes(), span) {
            Ok(region) => region.nodes.len(),
            Err(_) => 0,
        },
        None => 0,
    }
}
