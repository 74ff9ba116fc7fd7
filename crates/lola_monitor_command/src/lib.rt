//! The words of a command line: which command they are, and what they say of it.
//!
//! Promised: the command is the one that the definition gives of the words, or there is none; what they say of it is in its bounds; and the
//! name of a saved state is what stands at the place that the command tells.
#![tactic(auto)]

pub mod command;
pub mod law;
pub mod names;
mod options;
pub mod said;
mod settings;
mod words;
