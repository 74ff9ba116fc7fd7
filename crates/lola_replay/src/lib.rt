//! Checks a finished run by a second, plainer evaluator: whether a trace and verdicts are those of one run; and the end line that tells it.
//!
//! The evaluator follows the definition of the model: what a clause comes to is asked for on demand, of what is known of the step so
//! far, and nothing of the engine that runs monitors is used.
//!
//! Promised: what is found of a trace and verdicts is what the definition finds of them, line by line.
//! Not promised: who wrote them.
#![tactic(auto)]

pub mod compare;
pub mod end;
pub mod ending;
pub mod entries;
pub mod finding;
pub mod law;
pub mod lines;
pub mod progress;
pub mod replay;
pub mod tracking;
pub mod written;
