//! Why parsing stops.

ghost use Rattle.std.specs.Prelude.{◌≡◌};
ghost use Rattle.c_lexer.specs.Stops.{fail_of};

use std::alloc::AllocError;
use suite_base::{Fail, NoMemory, Refusal};

/// Want of memory, or a refusal of the text.
#[derive(Clone, Copy, Debug, PartialEq, Eq)]
pub enum Stop {
    Memory,
    Refused(Refusal),
}

impl Stop {
    /// The same as an answer of the suite.
    pub fn fail(self) -> Fail
        ensures { result ≡ fail_of self }
    {
        match self {
            Stop::Memory => Fail::Memory,
            Stop::Refused(refusal) => Fail::Refused(refusal),
        }
    }
}

impl From<AllocError> for Stop {
    ghost use Rattle.std.specs.Prelude.{◌≡◌};
    ghost use Rattle.c_lexer.specs.declared.stops.Stop.TheVariants.{Memory};

    ghost from_gives = { λ _ e. e ≡ Memory };

    fn from(_error: AllocError) -> Stop {
        Stop::Memory
    }
}

impl From<NoMemory> for Stop {
    ghost use Rattle.std.specs.Prelude.{◌≡◌};
    ghost use Rattle.c_lexer.specs.declared.stops.Stop.TheVariants.{Memory};

    ghost from_gives = { λ _ e. e ≡ Memory };

    fn from(_error: NoMemory) -> Stop {
        Stop::Memory
    }
}
