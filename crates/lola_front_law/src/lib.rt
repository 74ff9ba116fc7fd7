//! The laws of the compiler, about definitions alone: a text is decided in one way, phase by phase; each text has a plan or a refusal, since
//! what each phase asks for is there; names are words, a verdict is one line, and the text literals of a plan are in UTF-8.
//!
//! And the laws of the model, with which what is compiled is compared. Plans that differ in addresses alone mean the same: the compiler puts
//! the parts of expressions and of formulas into boxes, and where these lie differs from run to run; such plans have the same models, and
//! write the same lines. And the laws of deadlines: when a clause with a rate is active, which local deadline a store finds next, and which
//! instances it lists as due, all said of the k-th deadlines of a rate. A crate of laws has no code; nothing that runs stands on it, so it
//! is checked beside what stands on the compiler.
#![tactic(auto)]

pub mod alike;
pub mod answered;
pub mod deadlines;
pub mod law;
pub mod planned;
pub mod texts;
