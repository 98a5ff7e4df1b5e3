//! What a token is to the grammar.

ghost use Rattle.std.specs.Prelude.{◌≡◌, ◌≢◌, map, ◌<◌, ◌+◌, ◌-◌, ◌*◌, ◌^◌, ◌≤◌, true, false};
ghost use Rattle.c_lexer.specs.Symbols as spec;

use crate::tokens::TokenKind;
use suite_base::MAX_WEIGHT;

/// What stands next: a token by its role in the grammar, the end, or what is none of both.
#[derive(Clone, Copy, Debug, PartialEq, Eq)]
pub enum Symbol {
    End,
    /// No token begins here.
    Bad,
    /// An integer that is no coefficient.
    TooLarge,
    For,
    If,
    Else,
    Int,
    /// Any other reserved name.
    Reserved,
    /// `max`, `min`, `ceild` or `floord`, which are names only before `(`.
    Operator,
    Name,
    Integer,
    Literal,
    OpenRound,
    CloseRound,
    OpenSquare,
    CloseSquare,
    OpenCurly,
    CloseCurly,
    Semicolon,
    Comma,
    Question,
    Colon,
    Assign,
    PlusAssign,
    MinusAssign,
    TimesAssign,
    DivideAssign,
    RemainderAssign,
    Increment,
    Decrement,
    Plus,
    Minus,
    Times,
    Divide,
    Remainder,
    Less,
    LessEqual,
    Greater,
    GreaterEqual,
    Same,
    Differ,
    And,
    Or,
    Not,
}

/// The names that are not free, with what they are.
pub const WORDS: [(&[u8], Symbol); 36] = [
    (b"for", Symbol::For),
    (b"if", Symbol::If),
    (b"else", Symbol::Else),
    (b"int", Symbol::Int),
    (b"max", Symbol::Operator),
    (b"min", Symbol::Operator),
    (b"ceild", Symbol::Operator),
    (b"floord", Symbol::Operator),
    (b"auto", Symbol::Reserved),
    (b"break", Symbol::Reserved),
    (b"case", Symbol::Reserved),
    (b"char", Symbol::Reserved),
    (b"const", Symbol::Reserved),
    (b"continue", Symbol::Reserved),
    (b"default", Symbol::Reserved),
    (b"do", Symbol::Reserved),
    (b"double", Symbol::Reserved),
    (b"enum", Symbol::Reserved),
    (b"extern", Symbol::Reserved),
    (b"float", Symbol::Reserved),
    (b"goto", Symbol::Reserved),
    (b"long", Symbol::Reserved),
    (b"register", Symbol::Reserved),
    (b"return", Symbol::Reserved),
    (b"short", Symbol::Reserved),
    (b"signed", Symbol::Reserved),
    (b"sizeof", Symbol::Reserved),
    (b"static", Symbol::Reserved),
    (b"struct", Symbol::Reserved),
    (b"switch", Symbol::Reserved),
    (b"typedef", Symbol::Reserved),
    (b"union", Symbol::Reserved),
    (b"unsigned", Symbol::Reserved),
    (b"void", Symbol::Reserved),
    (b"volatile", Symbol::Reserved),
    (b"while", Symbol::Reserved),
];

/// Whether two symbols are the same.
pub fn same_symbol(a: Symbol, b: Symbol) -> bool
    ensures value { result ≡ spec.same_symbol a b }
    ensures same { result ≡ true → a ≡ b }
    ensures other { result ≡ false → a ≢ b }
{
    a == b
}

// What a table has for a name; a free name where it has none.
fn lookup(table: &[(&[u8], Symbol)], text: &[u8]) -> Symbol
    ensures { result ≡ spec.lookup (map (λ w. (w.0.now, w.1)) table.now) text.now }
{
    let mut table = table;
    while let [entry, rest @ ..] = table {
        if entry.0 == text {
            return entry.1;
        }
        table = rest;
    }
    Symbol::Name
}

// The least and the greatest number of bytes of these words.
const SHORTEST_WORD: usize = 2;

const LONGEST_WORD: usize = 8;

// What a name is: a reserved word, an operator, or a free name.
fn name_symbol(text: &[u8]) -> Symbol
    ensures { result ≡ spec.name_symbol text.now }
{
    if text.len() < SHORTEST_WORD {
        return Symbol::Name;
    }
    if text.len() > LONGEST_WORD {
        return Symbol::Name;
    }
    lookup(&WORDS, text)
}

// Whether digits stand for a number above the greatest coefficient.
fn is_too_large(digits: &[u8]) -> bool
    ensures { result ≡ spec.is_too_large digits.now }
{
    let mut value: u128 = 0;
    for b in digits {
        if value > MAX_WEIGHT / 10 {
            return true;
        }
        value = value_after(value, *b);
    }
    value > MAX_WEIGHT
}

// The number that one digit more makes of `value`.
fn value_after(value: u128, digit: u8) -> u128
    requires { value < 2 ^ 124 }
    ensures { result ≡ 10 * value + (digit - 48) }
{
    10 * value + u128::from(digit.saturating_sub(b'0'))
}

// A sign of one byte.
fn single(b: u8) -> Symbol
    ensures { result ≡ spec.single b }
{
    match b {
        b'(' => Symbol::OpenRound,
        b')' => Symbol::CloseRound,
        b'[' => Symbol::OpenSquare,
        b']' => Symbol::CloseSquare,
        b'{' => Symbol::OpenCurly,
        b'}' => Symbol::CloseCurly,
        b';' => Symbol::Semicolon,
        b',' => Symbol::Comma,
        b'?' => Symbol::Question,
        b':' => Symbol::Colon,
        b'=' => Symbol::Assign,
        _ => operation(b),
    }
}

// An arithmetic sign, a comparison or `!`, of one byte.
fn operation(b: u8) -> Symbol
    ensures { result ≡ spec.operation b }
{
    match b {
        b'+' => Symbol::Plus,
        b'-' => Symbol::Minus,
        b'*' => Symbol::Times,
        b'/' => Symbol::Divide,
        b'%' => Symbol::Remainder,
        b'<' => Symbol::Less,
        b'>' => Symbol::Greater,
        b'!' => Symbol::Not,
        _ => Symbol::Bad,
    }
}

// A sign of two bytes that ends in `=`.
fn assigned(b: u8) -> Symbol
    ensures { result ≡ spec.assigned b }
{
    match b {
        b'+' => Symbol::PlusAssign,
        b'-' => Symbol::MinusAssign,
        b'*' => Symbol::TimesAssign,
        b'/' => Symbol::DivideAssign,
        b'%' => Symbol::RemainderAssign,
        b'<' => Symbol::LessEqual,
        b'>' => Symbol::GreaterEqual,
        b'=' => Symbol::Same,
        b'!' => Symbol::Differ,
        _ => Symbol::Bad,
    }
}

// A sign of the same byte twice.
fn doubled(b: u8) -> Symbol
    ensures { result ≡ spec.doubled b }
{
    match b {
        b'+' => Symbol::Increment,
        b'-' => Symbol::Decrement,
        b'&' => Symbol::And,
        b'|' => Symbol::Or,
        _ => Symbol::Bad,
    }
}

// A sign of one byte or two.
fn sign_symbol(text: &[u8]) -> Symbol
    ensures { result ≡ spec.sign_symbol text.now }
{
    match text {
        [a] => single(*a),
        [a, b] if *b == b'=' => assigned(*a),
        [a, _] => doubled(*a),
        _ => Symbol::Bad,
    }
}

/// What a token of this kind and these bytes is to the grammar.
pub fn symbol_of(kind: TokenKind, text: &[u8]) -> Symbol
    ensures { result ≡ spec.symbol_of kind text.now }
{
    match kind {
        TokenKind::Name => name_symbol(text),
        TokenKind::Integer => {
            if is_too_large(text) {
                Symbol::TooLarge
            } else {
                Symbol::Integer
            }
        }
        TokenKind::Literal => Symbol::Literal,
        TokenKind::Sign => sign_symbol(text),
    }
}
