//! The laws of cutting a text into its region and into tokens, for every text: functions that do
//! nothing, and whose contracts are the laws.

ghost use Rattle.c_lexer.specs.RegionLines.{RegionsStandBetweenPragmas};
ghost use Rattle.c_lexer.specs.Separators.{GapsAreSeparators};
ghost use Rattle.c_lexer.specs.TokenForms.{TokensAreLongest, NoTokenIsMissed, TokensHaveOneKind};

/// A kind and a length are cut exactly if no `/*` begins the text, and they are those of the longest
/// of its fronts that is a token.
pub fn tokens_are_longest()
    ensures { TokensAreLongest }
{}

/// Nothing is cut exactly if a `/*` begins the text, or no front of it is a token.
pub fn no_token_is_missed()
    ensures { NoTokenIsMissed }
{}

/// A text is a token of at most one kind.
pub fn tokens_have_one_kind()
    ensures { TokensHaveOneKind }
{}

/// The gap before a token is blanks, newlines and whole comments one after another, and no other of
/// them follows.
pub fn gaps_are_separators()
    ensures { GapsAreSeparators }
{}

/// A text has a region exactly if an `endscop` line comes after its first `scop` line and no other
/// `scop` line does: the lines between this `scop` line and the first `endscop` line after it, each
/// with its newline. The other answers tell what fails, `OpenRegion` and `SecondRegion` with the number
/// of the `scop` line.
pub fn regions_stand_between_pragmas()
    ensures { RegionsStandBetweenPragmas }
{}
