//! The names of a specification: what each means where it stands, and the refusals where that is nothing: a name that is
//! declared twice (E5), one that nothing declares (E6), more than there may be (E7), another number of arguments than the
//! stream has parameters (E8).
//!
//! Promised: the first refusal of names, of all that the definition refuses; quantities as they are meant.
#![tactic(auto)]

mod declaring;
pub mod law;
mod names;
pub mod quantities;
mod refusing;
pub mod table;
mod uses;
pub mod words;

pub use refusing::name_refusal;
