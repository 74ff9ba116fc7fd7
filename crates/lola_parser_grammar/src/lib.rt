//! The grammar of specifications, as a value, the trees that it spells, and what its readers answer. The definitions stand in `specs/`:
//! grammars as values, what they spell, how they are read from left to right, and the grammar of specifications; the laws of both in
//! `proofs/`, for each grammar for which one token ahead is enough.
//!
//! A tree is what the text of a specification spells, in the long forms and without brackets. Places are positions in the text, in bytes
//! from 0. Every name, literal, operator and word keeps the place at which a later phase of the compiler may refuse it. Lists and boxes
//! are those of the kit, which contracts see as lists and as what they hold.
//!
//! Promised: one token ahead is enough for this grammar, so that the laws of all such grammars hold of it.
//! Not promised: anything of a tree: it has the types alone.
#![tactic(auto)]

pub mod clauses;
pub mod declarations;
pub mod error;
pub mod expressions;
pub mod literals;
pub mod pacing;
