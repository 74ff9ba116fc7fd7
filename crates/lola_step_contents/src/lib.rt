//! What a step asks of a store, said of whole contents: the calls of a store, what the clauses of an accepted plan may ask of it, and the law
//! that a step of the evaluation model goes stage by stage.
//!
//! Promised: whatever content a store stood for before a call, it stands for the changed one behind it.
#![tactic(auto)]

pub mod calls;
pub mod law;
pub mod ready;
pub mod stages;
