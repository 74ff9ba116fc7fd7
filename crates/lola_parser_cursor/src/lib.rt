//! A cursor over the tokens of a specification, and what is read without anything nested: words, literals and operators.
//!
//! Promised: what is read is what the reading of the grammar gives of this part.
#![tactic(auto)]

pub mod cursor;
pub mod joined;
mod literals;
pub mod operators;
pub mod words;
