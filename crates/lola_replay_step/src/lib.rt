//! The questions of a step, each answered on demand over what is known of it.
//!
//! Promised: what the questions come to is what the clauses come to over the whole step.
#![tactic(auto)]

pub mod clauses;
pub mod closes;
pub mod due;
pub mod fault;
pub mod law;
pub mod questions;
pub mod step;
pub mod whole;
