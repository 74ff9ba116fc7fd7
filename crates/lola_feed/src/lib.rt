//! The sources of a run: their rows, handed in one after another at a desk, which is a merge object or a seat at a running intake;
//! the sources of a command, fetched from a shelf and given back; and two made-up sources for trying a machine.
//!
//! Promised: a turn is one call of the desk, of the next row, of the row that waits, or of the end, which is told once; a shelf
//! has lent each source or has all back; what was taken out of an intake is rightly marked, and at its end has of each source the
//! rows that were let in.
//! Not promised: when a source is read, and how long one waits.
#![tactic(auto)]

pub mod desk;
mod drill;
pub mod intake;
mod lock_intake;
pub mod rooms;
mod rows;
mod seat_desk;
pub mod sources;
mod text;
pub mod worker;

pub use drill::Drill;
pub use seat_desk::{HeldSeat, SeatDesk};
pub use text::specification;
