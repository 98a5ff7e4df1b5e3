//! The laws of OpenScop text, for every text: functions that do nothing, and whose contracts are the
//! laws.

ghost use Rattle.scop_reader.specs.Texts.{FaultIsNotTooLong, FaultIsOfText, LayoutReadsBack, ReadsExactly, StandsForOne, TextsReadBack};

/// A text is read, as its pieces, exactly where its lines say a document of these pieces, whose pieces
/// can be printed and pass no limit, and no second SCoP follows.
pub fn reads_exactly()
    ensures { ReadsExactly }
{}

/// A text stands for at most one SCoP.
pub fn stands_for_one()
    ensures { StandsForOne }
{}

/// What is printed of a valid SCoP is a text of that SCoP.
pub fn layout_reads_back()
    ensures { LayoutReadsBack }
{}

/// What is printed of a SCoP that was read from a text is a text of that SCoP.
pub fn texts_read_back()
    ensures { TextsReadBack }
{}

/// The fault of a text is of one of six kinds: `BadScop`, `NumberTooLarge`, `SecondScop`, `Limit`,
/// `NotSolved` or `BetaClash`.
pub fn fault_is_of_text()
    ensures { FaultIsOfText }
{}

/// No text has the fault `TooLong`: that refusal comes by the length of a file alone.
pub fn fault_is_not_too_long()
    ensures { FaultIsNotTooLong }
{}
