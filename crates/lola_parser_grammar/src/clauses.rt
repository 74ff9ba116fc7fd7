//! The clauses of a stream.

use crate::expressions::Expr;
use crate::pacing::Pacing;
use sqlite_items::Items;

/// A whole expression, with the place of the token before it: `:=`, `when`, `with`, the bracket or the comma of a
/// list, the keyword of a trigger.
#[derive(Drop)]
pub struct Part {
    pub at: u32,
    pub expr: Expr,
}

/// `spawn @p when c with e`: the place of the keyword, the pacing and the condition where they are written, and the
/// expressions that give the parameters, none where there is no `with`.
#[derive(Drop)]
pub struct Spawn {
    pub at: u32,
    pub pacing: Option<Pacing>,
    pub when: Option<Part>,
    pub with: Items<Part>,
}

/// `eval @p when c with e`. In the short form `@p := e` the place is that of the `:=`, as that of the expression is.
#[derive(Drop)]
pub struct Eval {
    pub at: u32,
    pub pacing: Option<Pacing>,
    pub when: Option<Part>,
    pub with: Part,
}

/// `close @p when c`
#[derive(Drop)]
pub struct Close {
    pub at: u32,
    pub pacing: Option<Pacing>,
    pub when: Part,
}
