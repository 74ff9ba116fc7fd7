//! Reads expressions, however deep they are nested, and pacings: rates, and formulas of inputs.
//!
//! Promised: what is read is what the reading of the grammar gives, at each number of levels.
#![tactic(auto)]

mod formulas;
pub mod nested;
mod nested_formulas;
pub mod pacings;
mod rules;
