//! What a run has to keep of the past: values of streams, and panes of windows.
//!
//! Promised: kept values and panes are those of the definition, which every accepted plan has, and a report has the lines of the
//! definition.
//! Not promised: how few would do for a plan that never reads them.
#![tactic(auto)]

pub mod bounds;
pub mod kept;
mod offsets;
mod pacing_text;
pub mod panes;
pub mod report;
mod size;
