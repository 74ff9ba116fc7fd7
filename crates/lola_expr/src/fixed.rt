//! Expressions without parameters.

ghost use Rattle.std.specs.Prelude.{◌≡◌};
ghost use Rattle.lola_expr.specs.Keys.{are_fixed as are_fixed_all, is_fixed as is_fixed_all};

use lola_model::expr::{Arguments, Expr};

/// Whether no parameter stands in an expression, so that it is the same for all instances.
#[cycle(fixed)]
pub fn is_fixed(expr: &Expr) -> bool
    ensures { result ≡ is_fixed_all expr.now }
{
    match expr {
        Expr::Literal(_, _) => true,
        Expr::Parameter(_, _) => false,
        Expr::Read(_, _, _, args) => are_fixed(args),
        Expr::Window(_, _, args) => are_fixed(args),
        Expr::Defaults(_, a, b) => is_fixed(a) && is_fixed(b),
        Expr::Unary(_, _, a) => is_fixed(a),
        Expr::Both(_, _, a, b) => is_fixed(a) && is_fixed(b),
        Expr::Choice(_, test, a, b) => is_fixed(test) && (is_fixed(a) && is_fixed(b)),
    }
}

/// Whether none stands in arguments.
#[cycle(fixed)]
fn are_fixed(args: &Arguments) -> bool
    ensures { result ≡ are_fixed_all args.now }
{
    match args {
        Arguments::End => true,
        Arguments::More(a, rest) => is_fixed(a) && are_fixed(rest),
    }
}
