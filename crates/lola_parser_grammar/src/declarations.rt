//! Declarations, and the whole specification.

use crate::clauses::{Close, Eval, Part, Spawn};
use crate::literals::{Literal, Name, Typed};
use crate::pacing::Pacing;
use lola_value::text::Text;
use sqlite_items::Items;

/// `input a: Int64, b: Int64`
#[derive(Drop)]
pub struct Inputs {
    /// The keyword.
    pub at: u32,
    pub inputs: Items<Typed>,
}

/// `constant c: Int64 := 1`
#[derive(Drop)]
pub struct Constant {
    /// The keyword.
    pub at: u32,
    pub name: Name,
    pub kind: Name,
    /// The `:=` before the literal.
    pub before: u32,
    pub literal: Literal,
}

/// `output x(p: Int64): Int64`, and its clauses.
#[derive(Drop)]
pub struct Output {
    /// The keyword.
    pub at: u32,
    pub name: Name,
    /// The opening bracket of the parameters, where there are any.
    pub bracket: Option<u32>,
    pub parameters: Items<Typed>,
    pub kind: Option<Name>,
    pub spawn: Option<Spawn>,
    pub eval: Eval,
    pub close: Option<Close>,
}

/// `trigger @p e "message"`. The expression's place is that of the keyword. A message that is left out is the empty
/// text.
#[derive(Drop)]
pub struct Trigger {
    pub pacing: Option<Pacing>,
    pub when: Part,
    pub message: Text,
}

/// A declaration.
#[derive(Drop)]
pub enum Declaration {
    Inputs(Inputs),
    Constant(Constant),
    Output(Output),
    Trigger(Trigger),
}

/// A specification: its declarations in order.
pub type Ast = Items<Declaration>;
