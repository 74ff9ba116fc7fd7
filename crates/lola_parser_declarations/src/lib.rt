//! Reads the tokens of a specification into a tree.
//!
//! Promised: the tree is what the reading of the grammar gives.
//! Not promised: where a refusal as too deep stands: `lola_parser` finds the place.
#![tactic(auto)]

mod clauses;
mod declarations;
mod parts;
pub mod reading;
