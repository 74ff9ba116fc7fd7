//! The table of a run's texts: equal texts that are held have one number, so that values with texts are copied and compared freely; and
//! which texts a store still needs, so that a run can let go of all others.
//!
//! Promised: equal texts that are held have one number, and no number is given twice. What a store stands for it stands for once all texts
//! but those that it tells are gone.
//! Not promised: that a number is small.
#![tactic(auto)]

pub mod adding;
pub mod ids;
pub mod keys;
pub mod law;
mod search;
pub mod store;
mod table;
mod text_key;

pub use table::TextTable;
