//! How a call ends before its last line is put.

use lola_replay::end::ReplayEnd;
use lola_report::end::EndLine;
use lola_save::end::StateEnd;
use lola_value::front::Refusal;
use lola_value::text::Text;

/// Why there is no plan.
#[derive(Clone, Copy)]
pub enum Unplanned {
    /// The specification was not given, or could not be read.
    Unreadable,
    Refused(Refusal),
    /// There is no memory.
    Memory,
}

/// Why there is no engine that goes on from a state.
#[derive(Clone, Copy)]
pub enum Unloaded {
    /// The state was not read, or is refused.
    Stated(StateEnd),
    /// There is no memory.
    Memory,
}

/// A call ends with a line, that of a run, of a drill, of a replay or of a state, or with a text, which is a report and its last line or a
/// state, or with a fault the lines before which could not be put, or with a failed put, or for want of memory.
#[derive(Drop)]
pub enum CallEnd {
    Line(EndLine),
    Drilled(EndLine),
    Report(Text),
    Replayed(ReplayEnd),
    Stated(StateEnd),
    CutFault,
    Put,
    Memory,
}
