//! The instances of one stream in little memory: of each the last of its values, and the panes of each window onto the
//! stream.
//!
//! Promised: what a call answers and changes is what the list of instances with all their values says, in order of birth.
#![tactic(auto)]

mod cells;
mod directory;
pub mod due;
mod giving;
pub mod instances;
mod key;
mod nothing;
mod restoring;
mod saved;
mod slots;
