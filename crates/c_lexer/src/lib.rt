//! Cuts the region of a C text out between its pragma lines, cuts the region into tokens, and reads these
//! one ahead, as the symbols of the grammar.
#![tactic(auto)]

mod cursors;
mod cuts;
pub mod laws;
mod lexers;
mod pieces;
mod pragmas;
mod regions;
mod stops;
mod symbols;
mod tokens;

pub use cursors::Tokens;
pub use cuts::gap;
pub use lexers::Lexer;
pub use pieces::{Piece, piece_bytes};
pub use pragmas::{Pragma, is_pragma};
pub use regions::{RegionFail, Span, find_region};
pub use stops::Stop;
pub use symbols::{Symbol, same_symbol, symbol_of};
pub use tokens::{BadToken, Token, TokenKind};
