//! One step of a run.
//!
//! Promised: over a store that stands for the content behind the steps so far, a step gives the next row of the model, or its
//! fault, or leaves all as it was.
//! Not promised: what a store remembers beyond its content.
#![tactic(auto)]

pub mod clauses;
mod closes;
pub mod end;
mod ends;
mod evals;
mod giving;
mod inputs;
pub mod moment;
mod schedule;
pub mod scratch;
mod seek;
pub mod spawn_result;
mod spawns;
pub mod step;
pub mod step_value;
pub mod tasks;
