//! Where a monitor's bytes come from and where its lines go: the traits, objects in memory for tests, and the objects of the machine,
//! with the pieces of a source that they fill: reads and writes that are made again, and whether a line has ended among bytes.
//!
//! Promised: a read, a fetch or a put fails only where the count of failures of that object rose; otherwise exactly the bytes
//! that are told move. A call that is made again ends with no interruption, and a piece holds the bytes that were read and not yet let go.
//! Not promised: what a file, a pipe or a terminal holds.
#![tactic(auto)]

pub mod again;
mod ahead;
mod bell;
mod handing;
pub mod line;
mod machine;
mod memory;
pub mod piece;
mod shelf;
mod starter;
mod traits;

pub use bell::Bell;
pub use machine::{ErrSink, FileSource, FolderShelf, OutSink};
pub use memory::{IdleGate, MemorySink, MemorySource};
pub use shelf::MemoryShelf;
pub use traits::{Ask, FetchEnd, Gate, PutEnd, ReadFailed, Shelf, Sink, Source};
