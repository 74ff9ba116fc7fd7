//! Pacings: when a clause is evaluated.

use crate::literals::{Name, Quantity};
use sqlite_items::Boxed;

/// A positive formula over inputs.
#[derive(Drop)]
pub enum Formula {
    Input(Name),
    /// `a && b`, with the place of the operator.
    Both(u32, Boxed<Formula>, Boxed<Formula>),
    /// `a || b`, with the place of the operator.
    Either(u32, Boxed<Formula>, Boxed<Formula>),
}

/// What stands behind the `@`.
#[derive(Drop)]
pub enum Rhythm {
    /// `@1Hz`, `@10s`
    Rate(Quantity),
    /// `@a`, `@(a || b)`
    Formula(Formula),
    /// `@Global(1Hz)`
    Global(Quantity),
    /// `@Local(1Hz)`
    Local(Quantity),
}

/// A pacing, with the place of its `@`.
#[derive(Drop)]
pub struct Pacing {
    pub at: u32,
    pub rhythm: Rhythm,
}
