//! Why there is no normal form.

ghost use Rattle.std.specs.Prelude.{◌≡◌};
ghost use Rattle.lola_pacing_normal.specs.declared.answer.NormalEnd.TheVariants as ends;

use lola_value::text::Memory;
use std::alloc::AllocFailed;

/// What ends the search for a normal form.
#[derive(Clone, Copy)]
pub enum NormalEnd {
    /// It has more than 256 sets.
    TooWide,
    Memory,
}

impl From<Memory> for NormalEnd {
    ghost from_gives = { λ _ e. e ≡ ends.Memory };

    fn from(_: Memory) -> NormalEnd {
        NormalEnd::Memory
    }
}

impl<T: Drop> From<AllocFailed<T>> for NormalEnd {
    ghost from_gives = { λ _ e. e ≡ ends.Memory };

    fn from(_: AllocFailed<T>) -> NormalEnd {
        NormalEnd::Memory
    }
}
