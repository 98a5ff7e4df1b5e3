//! The refusals of the whole suite, with their numbers and names.

ghost use Rattle.suite_base.specs.declared.refusals.Fail.TheVariants.{Memory};
ghost use Rattle.std.specs.Prelude.{◌≡◌};
ghost use Rattle.suite_base.specs.Refusals as spec;

use crate::memory::NoMemory;
use crate::places::Place;

/// What keeps a call from its answer: want of memory, or a refusal of the input.
#[derive(Clone, Copy, Debug, PartialEq, Eq)]
pub enum Fail {
    Memory,
    Refused(Refusal),
}

impl From<NoMemory> for Fail {
    ghost from_gives = { λ _ fail. fail ≡ Memory };

    fn from(_error: NoMemory) -> Fail {
        Fail::Memory
    }
}

/// What the number of an overflow counts.
#[derive(Clone, Copy, Debug, PartialEq, Eq)]
pub enum Where {
    Statement,
    Command,
    System,
}

/// The count that passed its limit.
#[derive(Clone, Copy, Debug, PartialEq, Eq)]
pub enum Which {
    Statements,
    Iterators,
    Parameters,
    Levels,
    Locals,
    Rows,
    Parts,
    Accesses,
    Subscripts,
    Arrays,
    Commands,
    Systems,
}

impl Where {
    /// What the number counts, in lower-case letters.
    pub fn name(&self) -> &'static str
        ensures { result.now ≡ spec.where_name self.now }
    {
        match self {
            Where::Statement => "statement",
            Where::Command => "command",
            Where::System => "system",
        }
    }
}

impl Which {
    /// The count that passed its limit, in lower-case letters.
    pub fn name(&self) -> &'static str
        ensures { result.now ≡ spec.which_name self.now }
    {
        match self {
            Which::Statements => "statements",
            Which::Iterators => "iterators",
            Which::Parameters => "parameters",
            Which::Levels => "levels",
            Which::Locals => "locals",
            Which::Rows => "rows",
            Which::Parts => "parts",
            Which::Accesses => "accesses",
            Which::Subscripts => "subscripts",
            Which::Arrays => "arrays",
            Which::Commands => "commands",
            Which::Systems => "systems",
        }
    }
}

/// The fields of a refusal, as messages print them: numbers, and what a number counts.
#[derive(Clone, Copy, Debug)]
pub enum Fields {
    NoFields,
    One(u32),
    Two(u32, u32),
    Counted(&'static str, u32),
}

/// What messages say of a refusal: its number, its name and its fields.
#[derive(Clone, Copy, Debug)]
pub struct Entry {
    pub number: u8,
    pub name: &'static str,
    pub fields: Fields,
}

// An entry of the list of refusals.
fn told(number: u8, name: &'static str, fields: Fields) -> Entry
    ensures { spec.said_by result ≡ spec.said number name.now (spec.fields_text fields) }
{
    Entry {
        number,
        name,
        fields,
    }
}

/// A named refusal of an input. Lines, statements, commands and systems count from 1; 0 stands for
/// the whole. `docs/REFUSALS.md` has the number, the fields and the cause of each.
#[derive(Clone, Copy, Debug, PartialEq, Eq)]
pub enum Refusal {
    /// The file has more than 16,777,216 bytes.
    TooLong,
    /// No line is a `scop` pragma line.
    NoRegion,
    /// The `scop` pragma line of this number has no `endscop` line after it.
    OpenRegion(u32),
    /// A second `scop` pragma line stands at this line.
    SecondRegion(u32),
    /// No token of C begins at this place.
    BadToken(Place),
    /// The tokens up to this place begin no region.
    BadSyntax(Place),
    /// A loop or a nest of brackets past the depth that is read opens at this place.
    TooDeep(Place),
    /// A subscript, bound, condition or step that begins at this place is not affine.
    NotAffine(Place),
    /// The name at this place has another role elsewhere.
    NameClash(Place),
    /// The domain of this statement is a union of more than 64 parts.
    TooManyParts(u32),
    /// This line is not as OpenScop text wants it.
    BadScop(u32),
    /// The number at this place is outside the range of a coefficient.
    NumberTooLarge(Place),
    /// A second SCoP begins at this line.
    SecondScop(u32),
    /// A scattering or an access of this statement is not in solved form.
    NotSolved(u32),
    /// The beta vectors of these two statements are equal, or one is a prefix of the other.
    BetaClash(u32, u32),
    /// This count, of this statement or command, passes its limit.
    Limit(Which, u32),
    /// The text at this place goes on no script.
    BadScript(Place),
    /// No statement is under the beta prefix of this command.
    NoBeta(u32),
    /// A level of this command is not within its statements.
    BadLevel(u32),
    /// An argument of this command is not as its condition wants it.
    BadArgument(u32),
    /// The beta prefix of this command names no loop.
    NotALoop(u32),
    /// A sum of this statement, command or system passes the range of a coefficient.
    Overflow(Where, u32),
    /// The elimination of this system passes 16,384 rows.
    TooManyRows(u32),
    /// This violation system has a rational point.
    Illegal(u32),
    /// The two SCoPs differ in their counts, at this statement or in the whole.
    Different(u32),
    /// This statement of the original is not in Clan's form.
    NotClanForm(u32),
    /// This statement of the target is not recoverable.
    NotRecoverable(u32),
    /// This entry of the printed block is not the defined one.
    BadCertificate(u32),
}

impl Refusal {
    /// The list of refusals: the number, the name and the fields of each. Numbers are never moved; 16 and
    /// 30 are no refusal's. The fields of a place are its line and its column.
    pub fn entry(&self) -> Entry
        ensures { spec.said_by result ≡ spec.entry_of self.now }
    {
        match self {
            Refusal::TooLong => told(1, "TooLong", Fields::NoFields),
            Refusal::NoRegion => told(2, "NoRegion", Fields::NoFields),
            Refusal::OpenRegion(n) => told(3, "OpenRegion", Fields::One(*n)),
            Refusal::SecondRegion(n) => told(4, "SecondRegion", Fields::One(*n)),
            Refusal::BadToken(place) => told(5, "BadToken", Fields::Two(place.line, place.column)),
            Refusal::BadSyntax(place) => told(
                6,
                "BadSyntax",
                Fields::Two(place.line, place.column),
            ),
            Refusal::TooDeep(place) => told(7, "TooDeep", Fields::Two(place.line, place.column)),
            Refusal::NotAffine(place) => told(
                8,
                "NotAffine",
                Fields::Two(place.line, place.column),
            ),
            Refusal::NameClash(place) => told(
                9,
                "NameClash",
                Fields::Two(place.line, place.column),
            ),
            Refusal::TooManyParts(n) => told(10, "TooManyParts", Fields::One(*n)),
            Refusal::BadScop(n) => told(11, "BadScop", Fields::One(*n)),
            Refusal::NumberTooLarge(place) => told(
                12,
                "NumberTooLarge",
                Fields::Two(place.line, place.column),
            ),
            Refusal::SecondScop(n) => told(13, "SecondScop", Fields::One(*n)),
            Refusal::NotSolved(n) => told(14, "NotSolved", Fields::One(*n)),
            Refusal::BetaClash(i, j) => told(15, "BetaClash", Fields::Two(*i, *j)),
            Refusal::Limit(which, n) => told(17, "Limit", Fields::Counted(which.name(), *n)),
            Refusal::BadScript(place) => told(
                18,
                "BadScript",
                Fields::Two(place.line, place.column),
            ),
            Refusal::NoBeta(n) => told(19, "NoBeta", Fields::One(*n)),
            Refusal::BadLevel(n) => told(20, "BadLevel", Fields::One(*n)),
            Refusal::BadArgument(n) => told(21, "BadArgument", Fields::One(*n)),
            Refusal::NotALoop(n) => told(22, "NotALoop", Fields::One(*n)),
            Refusal::Overflow(place, n) => told(23, "Overflow", Fields::Counted(place.name(), *n)),
            Refusal::TooManyRows(n) => told(24, "TooManyRows", Fields::One(*n)),
            Refusal::Illegal(n) => told(25, "Illegal", Fields::One(*n)),
            Refusal::Different(n) => told(26, "Different", Fields::One(*n)),
            Refusal::NotClanForm(n) => told(27, "NotClanForm", Fields::One(*n)),
            Refusal::NotRecoverable(n) => told(28, "NotRecoverable", Fields::One(*n)),
            Refusal::BadCertificate(n) => told(29, "BadCertificate", Fields::One(*n)),
        }
    }
}
