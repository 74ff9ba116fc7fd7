//! The plain store: all values of every instance, and windows that are folds over them.
//!
//! Promised: every clause of the trait of stores, as the bounded store does; tests compare the two.
//! Not promised: to be small or fast.
#![tactic(auto)]

mod begin;
mod changes;
mod due;
mod giving;
mod instance;
pub mod law;
mod opening;
mod population;
mod prepare;
mod reading;
pub mod store;
mod tally;
mod texts;
mod whole;
