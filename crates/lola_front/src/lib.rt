//! The compiler: from the text of a specification to its plan, or to the refusal by which it has none.
//!
//! Promised: the plan is that of the text and is accepted, or the first phase that refuses answers its refusal of least place.
//! Its law says that a specification whose kinds are filled in, and of which nothing is refused, is typed and named.
//! Not promised: which of several plans with other addresses: they mean the same.
#![tactic(auto)]

mod compiling;
pub mod law;
mod phases;
mod rates;

pub use compiling::compile;
