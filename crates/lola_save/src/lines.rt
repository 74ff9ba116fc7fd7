//! The lines of a state.

ghost use Rattle.std.specs.Prelude.{◌≡◌, ◌++◌, OnOk, OnErr, codes};
ghost use Rattle.lola_value.specs.Appending.{AppendsPart};
ghost use Rattle.lola_save_text.specs.Lines.{InstLine, LastLine, PanesLine, RingLine, StartLine, StepsLine, StreamLine, line_text, time_or_dash};

use crate::words::{panes_text, time_or_dash, values_text};
use lola_save_text::forms::WindowForm;
use lola_save_text::state::{SavedInstance, SavedPanes};
use lola_value::numbers::number_text;
use lola_value::text::{Memory, Text};

// Appends a time or a dash, and LF.
fn timed_line(time: Option<u64>, to: &mut Text) -> Result<(), Memory>
    ensures ok { OnOk result (to.new ≡ to.old ++ (time_or_dash time ++ codes "\n")) }
    ensures memory { OnErr result (AppendsPart to.old to.new (time_or_dash time ++ codes "\n")) }
{
    time_or_dash(time, to)?;
    to.append(b"\n")
}

/// Appends the line of the start of a run.
pub(crate) fn start_line(start: Option<u64>, to: &mut Text) -> Result<(), Memory>
    ensures ok { OnOk result (to.new ≡ to.old ++ line_text (StartLine start)) }
    ensures memory { OnErr result (AppendsPart to.old to.new (line_text (StartLine start))) }
{
    to.append(b"start ")?;
    timed_line(start, to)
}

/// Appends the line of the last accepted row.
pub(crate) fn last_line(last: Option<u64>, to: &mut Text) -> Result<(), Memory>
    ensures ok { OnOk result (to.new ≡ to.old ++ line_text (LastLine last)) }
    ensures memory { OnErr result (AppendsPart to.old to.new (line_text (LastLine last))) }
{
    to.append(b"last ")?;
    timed_line(last, to)
}

/// Appends the line of the number of steps.
pub(crate) fn steps_line(steps: u64, to: &mut Text) -> Result<(), Memory>
    ensures ok { OnOk result (to.new ≡ to.old ++ line_text (StepsLine steps)) }
    ensures memory { OnErr result (AppendsPart to.old to.new (line_text (StepsLine steps))) }
{
    to.append(b"steps ")?;
    number_text(steps, to)?;
    to.append(b"\n")
}

/// Appends the line of a stream.
pub(crate) fn stream_line(number: u64, count: u64, to: &mut Text) -> Result<(), Memory>
    ensures ok { OnOk result (to.new ≡ to.old ++ line_text (StreamLine number count)) }
    ensures memory { OnErr result (AppendsPart to.old to.new (line_text (StreamLine number count))) }
{
    to.append(b"stream ")?;
    number_text(number, to)?;
    to.append(b" ")?;
    number_text(count, to)?;
    to.append(b"\n")
}

/// Appends the line of an instance.
pub(crate) fn inst_line(instance: &SavedInstance, to: &mut Text) -> Result<(), Memory>
    ensures ok { OnOk result (to.new ≡ to.old ++ line_text (InstLine instance.now.born instance.now.params)) }
    ensures memory { OnErr result (AppendsPart to.old to.new (line_text (InstLine instance.now.born instance.now.params))) }
{
    to.append(b"inst ")?;
    time_or_dash(instance.born, to)?;
    values_text(instance.params.as_slice(), to)?;
    to.append(b"\n")
}

/// Appends the line of an instance's values.
pub(crate) fn ring_line(instance: &SavedInstance, to: &mut Text) -> Result<(), Memory>
    ensures ok { OnOk result (to.new ≡ to.old ++ line_text (RingLine instance.now.ring)) }
    ensures memory { OnErr result (AppendsPart to.old to.new (line_text (RingLine instance.now.ring))) }
{
    to.append(b"ring")?;
    values_text(instance.ring.as_slice(), to)?;
    to.append(b"\n")
}

/// Appends the line of a window's panes.
pub(crate) fn panes_line(
    window: &WindowForm,
    panes: &Option<SavedPanes>,
    to: &mut Text,
) -> Result<(), Memory>
    ensures ok { OnOk result (to.new ≡ to.old ++ line_text (PanesLine window.now.number panes.now)) }
    ensures memory { OnErr result (AppendsPart to.old to.new (line_text (PanesLine window.now.number panes.now))) }
{
    to.append(b"panes ")?;
    number_text(window.number as u64, to)?;
    panes_text(panes, to)?;
    to.append(b"\n")
}
