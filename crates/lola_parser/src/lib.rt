//! Reads the tokens of a specification into a tree, and places each refusal at the very token where it belongs.
//!
//! Promised: the tree is spelled by the tokens; a refusal stands at the first token such that no specification goes on behind it,
//! or at the first that nests too deep. Its laws say at which nesting that is, in every specification that the tokens begin.
#![tactic(auto)]

mod cursor;
mod expressions;
pub mod law;
mod looking_back;
mod pending;
pub mod reading;

pub use lola_parser_print::print;
pub use reading::specification as parse;
