//! What a reader of rows answers.

use lola_model::journal::Row;
use lola_model::source::MalformedKind;
use lola_value::text::Memory;

/// How a reader ended.
#[derive(Clone, Copy)]
pub enum Ending {
    /// All rows were given.
    End,
    /// The line of this row, or the heading for row 0, has another form.
    Malformed { kind: MalformedKind, row: u64 },
    /// A read failed.
    ReadFailed,
    /// There was no memory for a row.
    Memory,
}

/// One answer of a reader: the next row, or how it ended.
#[derive(Drop)]
pub enum RowAnswer {
    /// The next row, numbered from 1.
    Row(Row),
    /// All rows were given.
    End,
    /// The line of this row, or the heading for row 0, has another form.
    Malformed { kind: MalformedKind, row: u64 },
    /// A read failed.
    ReadFailed,
    /// There was no memory for a row.
    Memory,
}

impl From<Ending> for RowAnswer {
    ghost use Rattle.std.specs.Prelude.{◌≡◌};
    ghost use Rattle.lola_rows.specs.Reading.{answer_of};

    ghost from_gives = { λ ending answer. answer ≡ answer_of ending };

    fn from(ending: Ending) -> RowAnswer {
        match ending {
            Ending::End => RowAnswer::End,
            Ending::Malformed { kind, row } => RowAnswer::Malformed { kind, row },
            Ending::ReadFailed => RowAnswer::ReadFailed,
            Ending::Memory => RowAnswer::Memory,
        }
    }
}

impl From<Memory> for Ending {
    ghost use Rattle.std.specs.Prelude.{◌≡◌};
    ghost use Rattle.lola_rows.specs.declared.answer.Ending.TheVariants as how;

    ghost from_gives = { λ _ ending. ending ≡ how.Memory };

    fn from(_: Memory) -> Ending {
        Ending::Memory
    }
}
