//! The kinds of a specification: those that are left out are found, and what the table of kinds forbids is refused.
//!
//! Promised: every kind that is left out is filled in, and nothing is refused of kinds and literals; or the first refusal.
#![tactic(auto)]

pub mod around;
mod copies;
pub mod filled;
pub mod found;
pub mod full;
pub mod left_out;
pub mod part;
mod refused;
pub mod wholes;
