//! The tokens of a script's text.

use crate::command_names::CommandName;
use row_core::Coeff;
use suite_base::Place;

/// A token, or what stands in the place of one.
#[derive(Clone, Copy, Debug, PartialEq, Eq)]
pub enum Token {
    /// A name: that of a command, or another one.
    Name(Option<CommandName>),
    /// A number in the range of a coefficient.
    Number(Coeff),
    /// A number outside that range.
    TooLarge,
    /// `(`
    OpenRound,
    /// `)`
    CloseRound,
    /// `[`
    OpenSquare,
    /// `]`
    CloseSquare,
    /// `,`
    Comma,
    /// `;`
    Semicolon,
    /// A byte that begins no token.
    Stray,
    /// The end of the text.
    End,
}

/// A token and the place of its first byte.
#[derive(Clone, Copy, Debug, PartialEq, Eq)]
pub struct Lexeme {
    pub token: Token,
    pub place: Place,
}
