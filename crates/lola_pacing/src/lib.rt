//! The pacing of each clause of a specification, or the first refusal: what is found of clauses that have none of their own, by the leaves
//! whose pacings they get, and what is refused where it is found.
//!
//! Promised: each clause has the pacing that is written or found, and nothing is refused; or the first refusal. Leaves are exactly the
//! streams that are reached, in the order of their numbers.
#![tactic(auto)]

pub mod check;
mod clauses;
mod follow;
mod found;
mod given;
pub mod given_rates;
pub mod implication_law;
pub mod law;
pub mod leaves;
pub mod numbers;
mod pacings;
pub mod rates;
mod refusals;
pub mod refused;
mod search;
pub mod sorts;
pub mod uses;
pub mod window_refusal;
mod window_refusals;

pub use lola_pacing_normal::implies::implies;
pub use lola_pacing_normal::normal::normal;
