//! The monitor's one call: all that the program does.
//!
//! Promised: how a command ends, with its status, its verdicts and its trace, whatever the sources hold, in whatever order their
//! threads hand in rows and with however many workers. Its law says that what a call put to its trace tells the rows that it took.
//! Not promised: that a run over an endless source ends, the order of files that are merged, and how long anything takes.
#![tactic(auto)]

mod analysing;
mod call_end;
mod drilling;
mod ending;
pub mod law;
mod monitor;
mod nowhere;
mod planning;
mod putting;
mod reading;
mod replaying;
mod resuming;
mod saving;
mod sources;
mod stating;

pub use monitor::run_monitor;
