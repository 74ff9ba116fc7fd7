//! An intake over a queue with room for 1,024 items: sources queue their rows without taking turns, and one taker marks them.
//!
//! An item of the queue is a row, or a source's word that it has no more. The taker pops items in the order in which they
//! were queued, and marks each row by the merged time at its pop. A closing word, which the taker alone writes, tells
//! sources that no more rows are wanted.
//!
//! Promised: at the end what was taken and what is left is rightly marked, and has of each source the rows that were queued, in
//! their order; each call that moves nothing has its cause.
//! Not promised: that a call returns, and in which order rows of different sources are queued.
#![tactic(auto)]

pub mod answer;
mod closing;
mod counted;
mod delivery;
pub mod intake;
pub mod item;
pub mod seats;
mod shared;
