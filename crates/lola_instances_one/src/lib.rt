//! One instance of a stream in little memory: the last of its values, and the panes of each window onto it. Beside it the two structures by
//! which many instances are found quickly: a bit vector with rank and select, and the queue of the next deadlines of instances whose rates
//! count from the birth of each.
//!
//! Promised: what an instance answers are the accesses of the model on the whole list of its values, however few it keeps. What is read
//! of it to be saved says what those are, and an instance that is restored from it remembers them. Each answer of a bit vector is that of
//! the list of bits; the first deadline from a moment on, and the instances that have it, are told exactly.
#![tactic(auto)]

pub mod bits;
mod due;
pub mod instance;
pub mod law;
mod listing;
mod queue;
mod saved;
mod sums;
mod texts;
pub mod times;
pub mod window;
