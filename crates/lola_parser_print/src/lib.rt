//! A spelling of a specification's tree, in short forms and with brackets only where they are needed.
//!
//! Promised: what is appended are the tokens that the definition gives of the tree.
//! Not promised: that they spell it: that is a law of its own, of trees that were read.
#![tactic(auto)]

mod clauses;
mod declarations;
mod expressions;
mod tokens;

pub use declarations::print;
