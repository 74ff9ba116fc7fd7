//! What a spawn clause did in a step.

use lola_value::value::FaultKind;

/// What a spawn clause did, as far as faults go.
#[derive(Clone, Copy)]
pub enum SpawnResult {
    /// Nothing, or it named an instance.
    Fine,
    /// It has a fault of its own.
    Fault(FaultKind),
    /// It is poisoned.
    Poisoned,
}
