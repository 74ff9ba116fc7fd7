//! The bounded store: of each instance only the last values that accesses need, and the panes of each window onto it.
//!
//! Promised: every clause of the trait of stores, for each accepted plan, with no more values and panes than the plan has.
//! Not promised: how long a call takes.
#![tactic(auto)]

mod begin;
mod bounded;
mod changes;
mod giving;
pub mod law;
pub mod layout;
mod opening;
pub mod phase;
mod prepare;
mod reading;
mod restoring;
mod saved;
pub mod shared;
pub mod store;
mod texts;
