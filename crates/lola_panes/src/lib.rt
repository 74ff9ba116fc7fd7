//! A sliding window by panes: one partial result for each pane that has a value, and no more of them than the window
//! has panes.
//!
//! Promised: the answer of a window is the fold over all values that lie in it, of whatever values were added. A partial result that
//! is read is the fold over the values of its pane, and panes that are restored from such partial results answer as those did.
//! Not promised: windows that end between two panes.
#![tactic(auto)]

mod answer;
pub mod pane;
pub mod panes;
pub mod partial;
mod restoring;
mod ring;
