//! The law, about definitions alone.

ghost use Rattle.lola_expr.specs.Asking.{MayAskWhereTyped, MayAskInPlan};

use lola_model::expr::Expr;

/// Where an expression may be evaluated: if it is typed, with parameters of these kinds, and the store is ready for each of its
/// parts, then the store can be asked for all that it reads, which is what `eval` asks. The expressions of an accepted plan are
/// typed in its specification.
pub fn typed_can_ask(_expr: &Expr)
    ensures store { MayAskWhereTyped _expr.now }
    ensures plan { MayAskInPlan _expr.now }
{}
