//! How a step ends.

use lola_value::value::FaultKind;

/// How a step ends.
#[derive(Clone, Copy)]
pub enum StepEnd {
    /// All streams are evaluated, and instances are closed.
    Done,
    /// The first stream that has a fault, and the kind of that fault.
    Fault { stream: u32, kind: FaultKind },
    /// There was no memory to begin it, and the store stands as before.
    Memory,
}
