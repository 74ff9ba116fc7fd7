//! A run: rows that are marked, traced and run by an engine, whose verdicts are put; and the run of sources that are read in
//! turns by one thread, round after round. And, for laws, an engine behind whatever order of turns.
//!
//! Promised: whatever journal a run stands for, a row takes it to that journal with the row: its trace line, its verdicts, its
//! fault; sources in turns give their rows in rounds. A run that goes on where others left off promises the same behind the rows that
//! they had taken, and counts and puts what comes since. Whatever the order of turns, the text that an engine appends is that of what
//! was taken.
#![tactic(auto)]

pub mod entries;
mod feed;
mod putting;
pub mod rounds_law;
pub mod rows;
pub mod run;
pub mod run_law;
pub mod stop;
pub mod taken;
