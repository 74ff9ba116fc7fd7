//! A saved state is read from its text: the state, where the bytes are a state text of a plan, or why they are none.
//!
//! Promised: the state is read exactly where the bytes are the text of one, and it is that state; bytes of another specification are told apart,
//! and others are damaged at the first line with which no state text goes on.
//! Not promised: that a run had the state.
#![tactic(auto)]

mod bodies;
mod cuts;
pub mod head;
mod instances;
mod lines;
mod panes;
mod partial;
mod quotes;
pub mod read;
mod seen;
mod spelled;
mod streams;
pub mod times;
mod value;
mod values;
mod wide;
mod words;
