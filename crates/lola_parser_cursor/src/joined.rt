//! Expressions that are joined of others, each of which gets room of its own.

ghost use Rattle.std.specs.Prelude.{◌≡◌, IfOk};

use lola_parser_grammar::expressions::{Binary, Expr, Prefix};
use sqlite_items::Boxed;
use std::alloc::{AllocError, Global};

/// An operator with the operand behind it, which gets room of its own.
pub fn prefix(alloc: Global, op: Prefix, at: u32, a: Expr) -> Result<Expr, AllocError>
    ensures { IfOk result (λ e. e ≡ Expr.Prefix op at a) }
{
    Ok(Expr::Prefix(op, at, Boxed::new(alloc, a)?))
}

/// An operator with the operands on its two sides.
pub fn binary(alloc: Global, op: Binary, at: u32, a: Expr, b: Expr) -> Result<Expr, AllocError>
    ensures { IfOk result (λ e. e ≡ Expr.Binary op at a b) }
{
    let a = Boxed::new(alloc, a)?;
    Ok(Expr::Binary(op, at, a, Boxed::new(alloc, b)?))
}

/// An expression, and what stands in where it has no value, by the place of the point between them.
pub fn defaults(alloc: Global, at: u32, a: Expr, b: Expr) -> Result<Expr, AllocError>
    ensures { IfOk result (λ e. e ≡ Expr.Defaults at a b) }
{
    let a = Boxed::new(alloc, a)?;
    Ok(Expr::Defaults(at, a, Boxed::new(alloc, b)?))
}
