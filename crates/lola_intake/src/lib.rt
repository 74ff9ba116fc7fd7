//! The merge object that up to 64 sources and one engine share, each by its own seat, from as many threads; and the lock round it.
//!
//! Callers draw tickets, and are served in the order of their tickets. What a turn did is an event, and the events of
//! all turns are one history: it tells how the object came to be as it is, each caller has seen a beginning of it, and
//! of the caller's own events it has exactly those that the caller made. The history exists in proofs alone and takes
//! no memory.
//!
//! Promised: what was taken is rightly marked; at the end what was taken and what is left are the rows that the seats handed in,
//! of each source in its order.
//! Not promised: that a call returns, how long a caller waits, and in which order threads that told each other nothing take turns.
#![tactic(auto)]

mod beds;
pub mod event;
pub mod intake;
pub mod lock;
mod object;
mod plays;
pub mod seats;
#[cfg(test)]
mod tests;
pub mod turns;
pub mod view;

pub use lock::{LockSeat, TicketLock};
pub use turns::{Act, InOrder, Object, Tells};
pub use view::{CallState, Known, Turn, View};
