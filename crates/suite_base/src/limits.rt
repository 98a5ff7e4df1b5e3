//! The limits of the project: a count that passes one is refused.

ghost use Rattle.std.specs.Prelude.{◌≡◌};
ghost use Rattle.suite_base.specs.Limits as spec;

/// The most bytes that one input may have.
pub const MAX_INPUT: usize = 16_777_216;

/// The most statements of a SCoP or a region.
pub const MAX_STATEMENTS: usize = 1_024;

/// The most iterators of a statement.
pub const MAX_ITERATORS: usize = 12;

/// The most parameters of a SCoP or a region.
pub const MAX_PARAMETERS: usize = 16;

/// The most levels of a statement's schedule.
pub const MAX_LEVELS: usize = 24;

/// The most locals of a part.
pub const MAX_LOCALS: usize = 24;

/// The most rows of a part.
pub const MAX_ROWS: usize = 256;

/// The most parts of a relation.
pub const MAX_PARTS: usize = 64;

/// The most accesses of a statement.
pub const MAX_ACCESSES: usize = 256;

/// The most subscripts of an access.
pub const MAX_SUBSCRIPTS: usize = 12;

/// The most arrays of a SCoP or a region.
pub const MAX_ARRAYS: usize = 4_096;

/// The most commands of a script.
pub const MAX_COMMANDS: usize = 4_096;

/// The most dependence systems of a SCoP.
pub const MAX_SYSTEMS: usize = 65_536;

/// The most outputs, inputs, locals or parameters of a relation as it is read or built, before its own limit is asked.
pub const MAX_DIMENSIONS: usize = 65_536;

/// The greatest absolute value of a coefficient, and the greatest weight of a sum: 2^127 - 1.
pub const MAX_WEIGHT: u128 = 170_141_183_460_469_231_731_687_303_715_884_105_727;

/// The most rows of one stage of an elimination.
pub const MAX_STAGE_ROWS: usize = 16_384;

/// The most nests of brackets of C that are open at one time.
pub const MAX_NESTS: usize = 64;

/// The most loops of C around a statement.
pub const MAX_LOOPS: usize = 12;

/// Each of these constants is the number that the specifications state.
pub fn limits_agree()
    ensures input { MAX_INPUT ≡ spec.max_input }
    ensures statements { MAX_STATEMENTS ≡ spec.max_statements }
    ensures iterators { MAX_ITERATORS ≡ spec.max_iterators }
    ensures parameters { MAX_PARAMETERS ≡ spec.max_parameters }
    ensures levels { MAX_LEVELS ≡ spec.max_levels }
    ensures locals { MAX_LOCALS ≡ spec.max_locals }
    ensures rows { MAX_ROWS ≡ spec.max_rows }
    ensures parts { MAX_PARTS ≡ spec.max_parts }
    ensures accesses { MAX_ACCESSES ≡ spec.max_accesses }
    ensures subscripts { MAX_SUBSCRIPTS ≡ spec.max_subscripts }
    ensures arrays { MAX_ARRAYS ≡ spec.max_arrays }
    ensures commands { MAX_COMMANDS ≡ spec.max_commands }
    ensures systems { MAX_SYSTEMS ≡ spec.max_systems }
    ensures dimensions { MAX_DIMENSIONS ≡ spec.max_dimensions }
    ensures weight { MAX_WEIGHT ≡ spec.max_weight }
    ensures stage_rows { MAX_STAGE_ROWS ≡ spec.max_stage_rows }
    ensures nests { MAX_NESTS ≡ spec.max_nests }
    ensures loops { MAX_LOOPS ≡ spec.max_loops }
{}
