//! The state of a run: taken from the engine that runs it and written as its text, and an engine that goes on from such a text.
//!
//! Promised: what is taken of an engine over a bounded store is the state of whatever journal the engine stands for, and what `save`
//! appends is the text of that state for this specification; after want of memory a front of that text may be appended. What `load` makes
//! of the text of a state stands behind each journal without a fault whose state was written so, with the state's start as the one that was
//! given; other bytes are told apart as of another specification, or as damaged at the first line with which no state text goes on.
//! Not promised: that a file has the text; and of a state that no run has come to, which journal an engine that goes on from it stands for.
#![tactic(auto)]

pub mod end;
mod fields;
mod instances;
mod lines;
pub mod load;
mod loaded_instances;
mod loaded_panes;
mod loaded_values;
mod named;
mod panes;
pub mod save;
mod spelling;
mod values;
mod words;
pub mod write;
