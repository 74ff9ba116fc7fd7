//! The deadlines of rates, in their order.
//!
//! Promised: the next deadline is the least that is not passed, none is left out and none comes twice.
//! Not promised: deadlines that count from births, which the stores know.
#![tactic(auto)]

pub mod clock;
mod timers;
