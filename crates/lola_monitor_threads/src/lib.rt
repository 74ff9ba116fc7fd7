//! Sources that are read by the calling thread or on threads of their own, and the run of their rows on the calling thread.
//!
//! Promised: one journal came: of each source the rows that were taken, in order, and how it ended; the trace, the verdicts, the
//! first fault and where it stands are those of that journal. A run that goes on where others left off promises the same behind the rows
//! that they had taken, and counts and puts what comes since.
//! Not promised: which journal of several it is, and that a thread is never kept waiting. Nothing is claimed of the board at which the
//! threads wait for each other.
#![tactic(auto)]

pub mod board;
mod desk;
mod fit;
pub mod halt;
mod here;
pub mod run;
mod seated;
mod sending;
mod taking;
