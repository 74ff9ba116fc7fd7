//! Values of a step.

use lola_value::value::{Params, Value};

/// A value of a step: its stream, the parameters of its instance, and itself.
#[derive(Clone, Copy)]
pub struct StepValue {
    pub stream: u32,
    pub params: Params,
    pub value: Value,
}
