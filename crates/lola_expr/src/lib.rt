//! The evaluation of expressions over a store; and expressions as flat lists of instructions: each is compiled once, and its code comes to
//! what the expression does. And the keys of conditions: a condition may begin with comparisons of parameters with what no parameter stands
//! in, as `id == key && ..`. Once their values are known, it is false for each instance that has other parameters, so that it need not be
//! asked.
//!
//! Promised: the outcome is what the expression denotes, on whatever content the store stands for; the code of an expression, run, comes to
//! what its evaluation may come to; an instance that is left out has a false condition, whatever content the store stands for.
//! Not promised: anything where the store cannot be asked: `can_ask` says where; that every instance with a false condition is left out.
#![tactic(auto)]

pub mod access;
mod asking;
pub mod compile;
pub mod evaluation;
pub mod fixed;
pub mod instr;
pub mod keys;
pub mod law;
pub mod machine;
pub mod operators;
pub mod plan;
mod short_operators;
pub mod sought;
mod stack;
mod tested;
