//! A cursor over the tokens of a region, which cuts each as it is reached.

ghost use Rattle.std.specs.Prelude.{◌≡◌, ◌<◌, ◌≤◌, ◌^◌, length, OnOk};
ghost use Rattle.c_lexer.specs.Input as spec;
ghost use Rattle.c_lexer.specs.Input.{Reads};

use crate::cuts::token_at;
use crate::lexers::{Lexer, ahead};
use crate::pieces::{Piece, piece_bytes};
use crate::stops::Stop;
use crate::symbols::{Symbol, same_symbol, symbol_of};
use std::marker::Model;
use suite_base::{Place, Refusal, after_bytes};

/// The tokens that are still to come, and what the first of them is. Its place is computed where it is
/// refused, and for no other.
#[derive(Drop)]
pub struct Tokens<'a> {
    text: &'a [u8],
    /// The end of the last token that was taken.
    at: usize,
    symbol: Symbol,
    from: usize,
    to: usize,
}

impl<'a> Model for Tokens<'a> {
    ghost use Rattle.c_lexer.specs.Readings.{Reading};
    ghost use Rattle.c_lexer.specs.Cursor.{reading_of, IsReady};

    ghost Value = { Reading };

    ghost view = { reading_of };

    ghost invariant = { IsReady };
}

// What stands next in a text that was read up to byte `at`, and from and up to which byte it stands.
fn fetch(text: &[u8], at: usize) -> (Symbol, usize, usize)
    requires { at ≤ length text.now }
    ensures symbol { result.0 ≡ spec.symbol (record { text = text.now; at = at }) }
    ensures from { result.1 ≡ spec.start (record { text = text.now; at = at }) }
    ensures to { result.2 ≡ spec.behind (record { text = text.now; at = at }) }
    ensures within { result.2 ≤ length text.now }
{
    let (blank, rest) = ahead(text, at);
    if rest.is_empty() {
        return (Symbol::End, text.len(), text.len());
    }
    let from = at + blank.len();
    match token_at(rest) {
        None => (Symbol::Bad, at, at),
        Some((kind, length)) => (symbol_of(kind, &rest[..length]), from, from + length),
    }
}

impl<'a> Tokens<'a> {
    /// Begins with the lexer's next token. The text has fewer than 2^32 bytes.
    pub fn new(lexer: Lexer<'a>) -> Tokens<'a>
        requires { length lexer.text < 2 ^ 32 }
        ensures { result ≡ lexer.entry }
    {
        let text = lexer.text();
        let at = lexer.at();
        let (symbol, from, to) = fetch(text, at);
        Tokens {
            text,
            at,
            symbol,
            from,
            to,
        }
    }

    /// What stands next.
    pub fn peek(&self) -> Symbol
        ensures { result ≡ spec.symbol self.now }
    {
        self.symbol
    }

    /// Where the next token begins.
    pub fn position(&self) -> usize
        ensures { result ≡ spec.start self.now }
    {
        self.from
    }

    /// More turns than tokens are to come: one more than the bytes that are unread.
    pub fn left(&self) -> usize
        ensures { result ≡ spec.left self.now }
    {
        self.text.len().saturating_sub(self.at) + 1
    }

    /// Takes the next token, whatever it is.
    #[tactic(auto, unfolding(crate::specs::Input::piece, crate::specs::Input::after))]
    pub fn take(&mut self) -> Piece
        ensures piece { result ≡ spec.piece self.old }
        ensures next { self.new ≡ spec.after self.old }
    {
        let piece = Piece {
            from: self.from,
            to: self.to,
        };
        self.at = piece.to;
        let (symbol, from, to) = fetch(self.text, piece.to);
        self.symbol = symbol;
        self.from = from;
        self.to = to;
        piece
    }

    // The place of what stands next.
    fn place(&self) -> Place
        ensures { result ≡ spec.here self.now }
    {
        let (blank, _) = ahead(self.text, self.at);
        let before = &self.text[..self.at + blank.len()];
        after_bytes(Place { line: 1, column: 1 }, before)
    }

    /// Why no rule goes on with what stands next.
    #[tactic(auto, unfolding(crate::specs::Input::refusal))]
    pub fn refuse(&self) -> Stop
        ensures { result ≡ Stop.Refused (spec.refusal self.now) }
    {
        let refusal = match self.symbol {
            Symbol::Bad => Refusal::BadToken(self.place()),
            Symbol::TooLarge => Refusal::NumberTooLarge(self.place()),
            _ => Refusal::BadSyntax(self.place()),
        };
        Stop::Refused(refusal)
    }

    /// Whether this token comes next.
    #[tactic(auto, unfolding(crate::specs::Input::sees))]
    pub fn sees(&self, symbol: Symbol) -> bool
        ensures { result ≡ spec.sees symbol self.now }
    {
        same_symbol(self.peek(), symbol)
    }

    /// Takes this token, if it comes next.
    #[tactic(auto, unfolding(crate::specs::Input::after_if))]
    pub fn eat(&mut self, symbol: Symbol) -> bool
        ensures found { result ≡ spec.sees symbol self.old }
        ensures after { self.new ≡ spec.after_if symbol self.old }
    {
        let found = self.sees(symbol);
        if found {
            self.take();
        }
        found
    }

    /// Takes this token, which has to come next.
    #[tactic(auto, unfolding(crate::specs::Input::expect))]
    pub fn expect(&mut self, symbol: Symbol) -> Result<Piece, Stop>
        ensures { Reads (spec.expect symbol self.old) result self.new }
    {
        if self.sees(symbol) {
            Ok(self.take())
        } else {
            Err(self.refuse())
        }
    }

    /// The next token opens a nest, of which so many may still be opened.
    #[tactic(auto, unfolding(crate::specs::Input::open_nest))]
    pub fn open_nest(&self, nests: usize) -> Result<(), Stop>
        ensures reads { Reads (spec.open_nest nests self.now) result self.now }
        ensures some { OnOk result (0 < nests) }
    {
        if nests == 0 {
            Err(Stop::Refused(Refusal::TooDeep(self.place())))
        } else {
            Ok(())
        }
    }

    /// The next token opens a loop, of which so many may still be opened.
    #[tactic(auto, unfolding(crate::specs::Input::open_loop))]
    pub fn open_loop(&self, loops: usize) -> Result<(), Stop>
        ensures reads { Reads (spec.open_loop loops self.now) result self.now }
        ensures some { OnOk result (0 < loops) }
    {
        if loops == 0 {
            Err(Stop::Refused(Refusal::TooDeep(self.place())))
        } else {
            Ok(())
        }
    }

    // Whether the next token is the name that stands at this piece.
    #[tactic(auto, unfolding(crate::specs::Input::sees_name, crate::specs::Input::piece))]
    fn sees_name(&self, name: Piece) -> bool
        ensures { result ≡ spec.sees_name name self.now }
    {
        if !self.sees(Symbol::Name) {
            return false;
        }
        let piece = Piece {
            from: self.from,
            to: self.to,
        };
        piece_bytes(self.text, name) == piece_bytes(self.text, piece)
    }

    /// Takes a name, which has to be the one that stands at this piece.
    #[tactic(auto, unfolding(crate::specs::Input::same_name))]
    pub fn same_name(&mut self, name: Piece) -> Result<(), Stop>
        ensures { Reads (spec.same_name name self.old) result self.new }
    {
        if self.sees_name(name) {
            self.take();
            Ok(())
        } else {
            Err(self.refuse())
        }
    }
}
