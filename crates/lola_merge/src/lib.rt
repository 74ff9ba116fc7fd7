//! The merge object: the rows of several sources in the order in which they come, each marked accepted or late, and
//! every order in which sources and the taker of their rows can take turns.
//!
//! Promised: each call answers and changes what the table of the merge object says; any order of turns gives a legal journal of
//! the given rows.
//! Not promised: which order of turns comes.
#![tactic(auto)]

pub mod batch;
pub mod law;
pub mod state;
pub mod world;
