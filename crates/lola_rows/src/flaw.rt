//! Why a line gives nothing.

use crate::answer::Ending;
use lola_model::source::MalformedKind;
use lola_value::text::Memory;
use std::alloc::{AllocError, AllocFailed};

/// A line is malformed, or there was no memory for what it gives.
#[derive(Clone, Copy)]
pub(crate) enum Flaw {
    Malformed(MalformedKind),
    Memory,
}

impl Flaw {
    ghost use Rattle.std.specs.Prelude.{◌≡◌};
    ghost use Rattle.lola_rows.specs.Steps.{ending_of};

    /// How a reader ends at it, in the line of the row with this number.
    pub(crate) fn ending(self, row: u64) -> Ending
        ensures { result ≡ ending_of self row }
    {
        match self {
            Flaw::Malformed(kind) => Ending::Malformed { kind, row },
            Flaw::Memory => Ending::Memory,
        }
    }
}

impl From<MalformedKind> for Flaw {
    ghost use Rattle.std.specs.Prelude.{◌≡◌};
    ghost use Rattle.lola_rows.specs.declared.flaw.Flaw.TheVariants as flaw;

    ghost from_gives = { λ kind made. made ≡ flaw.Malformed kind };

    fn from(kind: MalformedKind) -> Flaw {
        Flaw::Malformed(kind)
    }
}

impl From<Memory> for Flaw {
    ghost use Rattle.std.specs.Prelude.{◌≡◌};
    ghost use Rattle.lola_rows.specs.declared.flaw.Flaw.TheVariants as flaw;

    ghost from_gives = { λ _ made. made ≡ flaw.Memory };

    fn from(_: Memory) -> Flaw {
        Flaw::Memory
    }
}

impl From<AllocError> for Flaw {
    ghost use Rattle.std.specs.Prelude.{◌≡◌};
    ghost use Rattle.lola_rows.specs.declared.flaw.Flaw.TheVariants as flaw;

    ghost from_gives = { λ _ made. made ≡ flaw.Memory };

    fn from(_: AllocError) -> Flaw {
        Flaw::Memory
    }
}

impl<T: Drop> From<AllocFailed<T>> for Flaw {
    ghost use Rattle.std.specs.Prelude.{◌≡◌};
    ghost use Rattle.lola_rows.specs.declared.flaw.Flaw.TheVariants as flaw;

    ghost from_gives = { λ _ made. made ≡ flaw.Memory };

    fn from(_: AllocFailed<T>) -> Flaw {
        Flaw::Memory
    }
}
