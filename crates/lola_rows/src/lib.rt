//! The rows of a source: a file of CSV, read row by row; the fields of its lines are those that the crate `csv` reads.
//!
//! Promised: the rows are those that the whole bytes of the source spell, in their order, and then its one end, however the bytes
//! come. The fields of a line are those that the crate `csv` has of it, and a value is the one that the field spells.
#![tactic(auto)]

mod answer;
pub mod blanks;
mod checks;
mod columns;
mod fill;
mod flaw;
pub mod laws;
pub mod line;
pub mod line_laws;
pub mod numbers;
mod reader;
mod rows;
mod seek;
mod stage;
pub mod values;
mod window;

pub use answer::{Ending, RowAnswer};
pub use reader::{EmptyReader, RowReader};
