//! The graph of a specification's reads, and the streams that read themselves within a step.
//!
//! Promised: the edges are those of the definition, and the stream that is named is the least one on a closed walk of weight 0.
#![tactic(auto)]

pub mod cycle;
mod lists;
pub mod nodes;
pub mod reads;
mod search;
