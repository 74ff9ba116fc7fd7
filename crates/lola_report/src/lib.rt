//! The lines of a run, written and read back: those of the trace, of verdicts and of the end, and the journal that a trace text tells.
//!
//! Promised: what is appended is the line of the definition, with one line feed, at its end; the journal of a trace text is the only one
//! whose lines spell it, or the first line that none tells is named.
#![tactic(auto)]

mod candidate;
pub mod end;
mod head;
pub mod law;
pub mod line;
pub mod lines_law;
mod names;
mod piece;
mod read;
mod row;
mod spelling;
pub mod trace;
pub mod verdict;

pub use end::end_line;
pub use read::{JournalEnd, journal, kinds_of};
pub use trace::trace_line;
pub use verdict::verdict_line;
