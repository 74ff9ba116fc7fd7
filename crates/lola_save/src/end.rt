//! The end lines of a call that goes on from a state, or saves one, and does neither.

ghost use Rattle.std.specs.Prelude.{◌≡◌, ◌++◌, OnOk, OnErr, codes, decimal};
ghost use Rattle.lola_value.specs.Appending.{AppendsPart};
ghost use Rattle.lola_save.specs.StateEnds.{damaged_text, state_end_text};

use lola_value::numbers::number_text;
use lola_value::text::{Memory, Text};

/// Why no run goes on from a state, or none is saved.
#[derive(Clone, Copy)]
pub enum StateEnd {
    /// The state was not given, or could not be read.
    Unreadable,
    /// It is damaged at this line, counted from 1: no state of the specification's plan begins with the bytes up to the end of that line.
    Damaged(u64),
    /// It is the state of another specification.
    OtherSpecification,
    /// There are more steps than a state can have.
    TooManySteps,
}

// Appends the line of a damaged state.
fn append_damaged(line: u64, to: &mut Text) -> Result<(), Memory>
    ensures ok { OnOk result (to.new ≡ to.old ++ damaged_text line) }
    ensures memory { OnErr result (AppendsPart to.old to.new (damaged_text line)) }
{
    to.append(b"= damaged state line ")?;
    number_text(line, to)?;
    to.append(b"\n")
}

/// Appends the line that tells it, with its LF. After `Memory` a front of the line may stand behind what was there.
pub fn state_end_line(end: StateEnd, to: &mut Text) -> Result<(), Memory>
    ensures ok { OnOk result (to.new ≡ to.old ++ state_end_text end) }
    ensures memory { OnErr result (AppendsPart to.old to.new (state_end_text end)) }
{
    match end {
        StateEnd::Unreadable => to.append(b"= unreadable state\n"),
        StateEnd::Damaged(line) => append_damaged(line, to),
        StateEnd::OtherSpecification => to.append(b"= state of another specification\n"),
        StateEnd::TooManySteps => to.append(b"= too many steps\n"),
    }
}
