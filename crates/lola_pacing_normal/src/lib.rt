//! Normal forms of event-based pacings, and implication of pacings.
//!
//! Promised: the least sets of inputs, in order; too many exactly where there are more than 256; one pacing implies another
//! exactly where it does over all sets.
#![tactic(auto)]

pub mod answer;
mod candidates;
pub mod implies;
pub mod law;
mod least;
pub mod normal;
mod order;
