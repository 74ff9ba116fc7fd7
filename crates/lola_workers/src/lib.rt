//! The tasks of a layer, split among threads.
//!
//! Promised: each result is an outcome that the job gives for the task of its place, for each number of workers.
//! Not promised: which worker does which task.
#![tactic(auto)]

mod layer;
mod share;

pub use layer::run_layer;
pub use share::Share;
