//! The names of a specification resolved: streams, windows, parameters and texts by their numbers, constants by their literals; and the
//! whole specification that comes of its tree, or the first refusal of its names.
//!
//! Promised: the specification is that which the declarations are resolved to, and nothing is refused of its names; or the first
//! refusal. And laws: a specification whose names are resolved, and of whose names nothing is refused, is named; and each list of
//! declarations is resolved to a specification, also one whose names are refused.
#![tactic(auto)]

mod clauses;
mod constants;
pub mod expressions;
pub mod law;
pub mod made;
mod outputs;
pub mod pacings;
mod places;
pub mod ranges;
pub mod resolvable;
mod resolving;
pub mod scope;
mod streams;
pub mod targets;

pub use resolving::resolve;
