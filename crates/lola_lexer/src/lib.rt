//! Cuts the bytes of a specification into the tokens of RTLola's whole-number profile.
//!
//! Promised: the tokens are those of the definition, in order and within the text, or the text is refused exactly where it has
//! none.
#![tactic(auto)]

pub mod cut;
pub mod law;
pub mod scan;
pub mod shape;
pub mod token;
