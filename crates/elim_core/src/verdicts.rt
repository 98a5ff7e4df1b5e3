//! How the decision of a system ends.

ghost use Rattle.std.specs.Prelude.{◌≡◌};
ghost use Rattle.elim_core.specs.Causes.{of_row_fail};

use farkas_cert::Certificate;
use row_core::RowFail;
use std::alloc::{AllocError, AllocFailed};
use suite_base::NoMemory;

/// Whether a system of rows has a rational point.
#[derive(Drop)]
pub enum Verdict {
    /// Integers and a factor of at least 1 for the constants meet every row.
    HasPoint,
    /// None do, and the certificate is valid.
    Empty(Certificate),
}

/// What keeps a decision from its verdict.
#[derive(Clone, Copy, Debug, PartialEq, Eq)]
pub enum ElimFail {
    Memory,
    /// The weight of the system's peak passes 2^127 - 1.
    Overflow,
    /// The row count of the system's peak passes 16,384.
    TooManyRows,
}

impl From<NoMemory> for ElimFail {
    ghost use Rattle.std.specs.Prelude.{◌≡◌};
    ghost use Rattle.elim_core.specs.declared.verdicts.ElimFail.TheVariants.{Memory};

    ghost from_gives = { λ _ fail. fail ≡ Memory };

    fn from(_e: NoMemory) -> ElimFail {
        ElimFail::Memory
    }
}

impl From<AllocError> for ElimFail {
    ghost use Rattle.std.specs.Prelude.{◌≡◌};
    ghost use Rattle.elim_core.specs.declared.verdicts.ElimFail.TheVariants.{Memory};

    ghost from_gives = { λ _ fail. fail ≡ Memory };

    fn from(_e: AllocError) -> ElimFail {
        ElimFail::Memory
    }
}

impl<T: Drop> From<AllocFailed<T>> for ElimFail {
    ghost use Rattle.std.specs.Prelude.{◌≡◌};
    ghost use Rattle.elim_core.specs.declared.verdicts.ElimFail.TheVariants.{Memory};

    ghost from_gives = { λ _ fail. fail ≡ Memory };

    fn from(_e: AllocFailed<T>) -> ElimFail {
        ElimFail::Memory
    }
}

/// A row that is not made passes a limit of the elimination.
pub fn failed(fail: RowFail) -> ElimFail
    ensures { result ≡ of_row_fail fail }
{
    match fail {
        RowFail::Memory => ElimFail::Memory,
        RowFail::Overflow => ElimFail::Overflow,
    }
}
