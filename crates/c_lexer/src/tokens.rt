//! What a token of C is.

use suite_base::Place;

/// What a token is: a name, a number that is an integer, any other number, or a sign.
#[derive(Clone, Copy, Debug, PartialEq, Eq)]
pub enum TokenKind {
    Name,
    /// `0`, or digits that do not begin with 0.
    Integer,
    /// Any other number: it begins with a digit, or with a point and a digit.
    Literal,
    Sign,
}

/// A token: its bytes are a slice of the text, and `place` is that of the first of them.
#[derive(Clone, Copy, Debug, PartialEq, Eq)]
pub struct Token<'a> {
    pub kind: TokenKind,
    pub text: &'a [u8],
    pub place: Place,
}

/// No token begins at this place.
#[derive(Clone, Copy, Debug, PartialEq, Eq)]
pub struct BadToken(pub Place);
