//! The tokens of a text, one after the other, each with its place.

ghost use Rattle.std.specs.Prelude.{◌≡◌, ◌+◌, ◌-◌, ◌<◌, ◌≤◌, ◌^◌, length, take, not, ◌==◌};
ghost use Rattle.std.specs.List.{prefix_len};
ghost use Rattle.suite_base.specs.Numbers.{is_digit, number_read};
ghost use Rattle.suite_base.specs.Bytes.{is_letter};
ghost use Rattle.suite_base.specs.Places.{first_place};
ghost use Rattle.clay_script.specs.Lexemes.{is_gap, begins_number, sign_token, number_token, token_of, token_length, line_length, lexemes};
ghost use Rattle.clay_script.specs.Taking.{Takes, BeginsToken};

use crate::command_names::command_named;
use crate::tokens::{Lexeme, Token};
use row_core::Coeff;
use suite_base::{
    NumberRead, Place, after_byte, is_blank_byte, is_digit_byte, is_letter_byte, read_number,
};

/// What is left of a text, and the place at which it begins.
#[derive(Drop)]
pub struct Lexer<'a> {
    rest: &'a [u8],
    place: Place,
    ghost lines: { place.line + length rest.now < 2 ^ 32 },
    ghost columns: { place.column + length rest.now < 2 ^ 32 },
}

impl<'a> Lexer<'a> {
    /// All of `text`, which has fewer than 2^32 - 1 bytes.
    pub fn new(text: &'a [u8]) -> Lexer<'a>
        requires { length text.now + 1 < 2 ^ 32 }
        ensures rest { result.rest.now ≡ text.now }
        ensures place { result.place ≡ first_place }
    {
        Lexer {
            rest: text,
            place: Place { line: 1, column: 1 },
        }
    }

    /// Takes the next token; at the end of the text it is `End`, again and again.
    pub fn next(&mut self) -> Lexeme
        ensures { Takes result (lexemes 0 self.old.place self.old.rest.now) (lexemes 0 self.new.place self.new.rest.now) }
    {
        self.skip_gaps();
        let place = self.place;
        let length = length_of_token(self.rest);
        let (word, _) = self.rest.split_at(length);
        let token = token_from(word);
        self.pass(length);
        Lexeme { token, place }
    }

    // Passes over the blanks, newlines and comments that stand first.
    fn skip_gaps(&mut self)
        ensures same { lexemes 0 self.new.place self.new.rest.now ≡ lexemes 0 self.old.place self.old.rest.now }
        ensures done { BeginsToken self.new.rest.now }
    {
        while let [first, ..] = self.rest {
            if is_gap_byte(*first) {
                self.pass(1);
            } else if *first == b'#' {
                self.pass(length_of_line(self.rest));
            } else {
                return;
            }
        }
    }

    // Passes over `count` bytes, or all that are left.
    fn pass(&mut self, count: usize)
        ensures same { lexemes 0 self.new.place self.new.rest.now ≡ lexemes count self.old.place self.old.rest.now }
        ensures size { length self.new.rest.now ≡ length self.old.rest.now - count }
    {
        let mut left = count;
        while left > 0 {
            let [first, rest @ ..] = self.rest else {
                return;
            };
            let place = after_byte(self.place, *first);
            *self = Lexer { rest, place };
            left -= 1;
        }
    }
}

// Whether `byte` is a blank or a newline.
fn is_gap_byte(byte: u8) -> bool
    ensures { result ≡ is_gap byte }
{
    is_blank_byte(byte) || byte == b'\n'
}

// Whether `byte` begins a number.
fn begins_number_byte(byte: u8) -> bool
    ensures { result ≡ begins_number byte }
{
    is_digit_byte(byte) || byte == b'-'
}

// The number of bytes before the first newline.
fn length_of_line(text: &[u8]) -> usize
    ensures { result ≡ line_length text.now }
{
    text.iter().take_while(|b| **b != b'\n').count()
}

// The number of letters at the front.
#[tactic(auto, using(crate::proofs::Lexing::prefix_within))]
fn letters_before(text: &[u8]) -> usize
    ensures answer { result ≡ prefix_len is_letter text.now }
    ensures within { result ≤ length text.now }
{
    text.iter().take_while(|b| is_letter_byte(**b)).count()
}

// The number of digits at the front.
#[tactic(auto, using(crate::proofs::Lexing::prefix_within))]
fn digits_before(text: &[u8]) -> usize
    ensures answer { result ≡ prefix_len is_digit text.now }
    ensures within { result ≤ length text.now }
{
    text.iter().take_while(|b| is_digit_byte(**b)).count()
}

// The number of bytes of the token at the front.
fn length_of_token(text: &[u8]) -> usize
    ensures answer { result ≡ token_length text.now }
    ensures within { result ≤ length text.now }
{
    match text {
        [] => 0,
        [first, rest @ ..] => {
            if is_letter_byte(*first) {
                1 + letters_before(rest)
            } else if begins_number_byte(*first) {
                1 + digits_before(rest)
            } else {
                1
            }
        }
    }
}

// The token that the bytes of one are.
fn token_from(word: &[u8]) -> Token
    ensures { result ≡ token_of word.now }
{
    match word {
        [] => Token::End,
        [first, ..] => {
            if is_letter_byte(*first) {
                Token::Name(command_named(word))
            } else if begins_number_byte(*first) {
                number_from(word)
            } else {
                sign_from(*first)
            }
        }
    }
}

// The token that a number word is.
fn number_from(word: &[u8]) -> Token
    ensures { result ≡ number_token (number_read word.now) }
{
    match read_number(word) {
        NumberRead::Value(n) => Token::Number(Coeff::bounded(n)),
        NumberRead::TooLarge => Token::TooLarge,
        NumberRead::NotNumber => Token::Stray,
    }
}

// The token that a sign is.
fn sign_from(byte: u8) -> Token
    ensures { result ≡ sign_token byte }
{
    match byte {
        b'(' => Token::OpenRound,
        b')' => Token::CloseRound,
        b'[' => Token::OpenSquare,
        b']' => Token::CloseSquare,
        b',' => Token::Comma,
        b';' => Token::Semicolon,
        _ => Token::Stray,
    }
}
