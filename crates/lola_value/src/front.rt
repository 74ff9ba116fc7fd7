//! What the compiler answers where it gives no plan.

use crate::text::Memory;
use thiserror::Error;

/// Why a specification is refused. The codes E1 to E19 and E21 have these numbers, as `code as u8` tells them. E20 was
/// a form that was not built yet, and is not used again.
#[derive(Clone, Copy, Debug)]
pub enum Code {
    /// E1: it has more than 1,048,576 bytes.
    TooLong = 1,
    /// E2: bytes that are no token.
    BadToken = 2,
    /// E3: a token, or the end, where the grammar has none.
    Unexpected = 3,
    /// E4: more than 512 operators, brackets and the like in one expression or pacing.
    TooDeep = 4,
    /// E5: a name that is declared already.
    Duplicate = 5,
    /// E6: a name that nothing declares.
    Unknown = 6,
    /// E7: too many inputs, streams or parameters, or too great an offset.
    TooMany = 7,
    /// E8: another number of arguments than the stream has parameters.
    BadArity = 8,
    /// E9: an operand, or an expression, of the wrong kind, or one that may have no value where one is needed.
    WrongType = 9,
    /// E10: a number, a duration or a rate out of its range.
    LiteralRange = 10,
    /// E11: a direct access to a stream that may have no value when it is read.
    NotImplied = 11,
    /// E12: no pacing is written, and none can be found.
    NoPacing = 12,
    /// E13: an event-based pacing with more than 256 alternatives.
    PacingTooWide = 13,
    /// E14: a direct access to a stream that is spawned, or evaluated under a condition.
    DirectToFiltered = 14,
    /// E15: a window in a clause that is not periodic.
    WindowOutsidePeriodic = 15,
    /// E16: a window of more than 65,536 panes.
    WindowTooFine = 16,
    /// E17: a period below 1,000 nanoseconds.
    PeriodTooShort = 17,
    /// E18: a window in a clause whose period is no whole number of nanoseconds.
    WindowNeedsWholePeriod = 18,
    /// E19: streams that read each other in the same step, round in a circle.
    ZeroCycle = 19,
    /// E21: a pacing by `@Local` of a clause that belongs to no instance that a spawn clause makes.
    LocalWithoutSpawn = 21,
}

/// A refusal: its code, and the position in the specification, in bytes from 0, at which it stands.
#[derive(Clone, Copy, Debug)]
pub struct Refusal {
    pub code: Code,
    pub at: u32,
}

/// Why a phase of the compiler gave nothing: it refuses the specification, or there was no memory.
#[derive(Clone, Copy, Debug, Error)]
pub enum FrontEnd {
    #[error("the specification is refused at byte {}", .0.at)]
    Refused(Refusal),
    #[error("there is no memory to compile the specification")]
    Memory,
}

impl From<Memory> for FrontEnd {
    ghost use Rattle.std.specs.Prelude.{◌≡◌};
    ghost use Rattle.lola_value.specs.declared.front.FrontEnd.TheVariants as front_end;

    ghost from_gives = { λ _ end. end ≡ front_end.Memory };

    fn from(_: Memory) -> Self {
        FrontEnd::Memory
    }
}
