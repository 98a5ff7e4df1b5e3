//! Pieces of a text, by where they begin and end.

ghost use Rattle.std.specs.Prelude.{◌≡◌};
ghost use Rattle.c_lexer.specs.Pieces.{bytes_of};

/// The bytes of the source from `from` up to `to`.
#[derive(Clone, Copy, Debug, PartialEq, Eq)]
pub struct Piece {
    pub from: usize,
    pub to: usize,
}

/// The bytes of a piece, as far as the source has them: none where the piece ends before it begins.
pub fn piece_bytes(source: &[u8], piece: Piece) -> &[u8]
    ensures { result.now ≡ bytes_of source.now piece }
{
    if piece.from >= piece.to || piece.from >= source.len() {
        return &[];
    }
    if piece.to >= source.len() {
        return &source[piece.from..];
    }
    &source[piece.from..piece.to]
}
