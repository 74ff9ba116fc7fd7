//! What replaying a run knows of a step and of what was before it, and what expressions come to of that: an answer, or the first
//! question that they wait for.
//!
//! Promised: an answer is what the definition says over what is known, and a question is one that it waits for.
#![tactic(auto)]

pub mod answer;
pub mod attempt;
pub mod operators;
pub mod question;
pub mod read;
pub mod scene;
pub mod table;
pub mod tally;
pub mod window;
