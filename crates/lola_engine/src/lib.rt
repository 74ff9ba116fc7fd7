//! The engine: a plan, run step by step over a store.
//!
//! Promised: whatever journal an engine stands for, a row takes it to that journal with the row: it appends the lines that the
//! model has more, and a fault is the model's, at the same stream and step. An engine that is resumed stands for the journal that
//! others have run, and goes on so.
//! Not promised: how long a step takes, and which texts are held beyond those that are needed.
#![tactic(auto)]

pub mod end;
pub mod engine;
mod fields;
mod lines;
mod resuming;
mod sweep;
pub mod times;
