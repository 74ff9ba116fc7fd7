//! Operators, on outcomes of 16 bytes: in 64 bits where these are enough, and else as the evaluation of expressions does it.

ghost use Rattle.std.specs.Prelude.{◌≡◌, ◌+ℤ◌, ◌-ℤ◌, ◌*ℤ◌, IfSome, IsTrue};
ghost use Rattle.lola_model.specs.declared.expr.Prefix.TheVariants as prefix;
ghost use Rattle.lola_value.specs.Shorts.{value_in, widened};
ghost use Rattle.lola_expr.specs.Operands.{operand_fits, operands_fit};
ghost use Rattle.lola_expr.specs.Machine.{Negates, Operates};
ghost use Rattle.lola_expr.specs.Numbered.{numbered};

use crate::operators::{negate, operate};
use crate::tested::{is_true, tested};
use lola_model::expr::{Binary, Prefix};
use lola_value::short::{Short, narrow, truth, value_of};
use lola_value::value::Kind;

// The sum of two numbers, where 64 bits hold it.
#[inline(always)]
fn sum(kind: Kind, a: i64, b: i64) -> Option<Short>
    ensures { IfSome result (λ r. widened r ≡ numbered kind (a +ℤ b)) }
{
    match a.checked_add(b) {
        Some(z) => Some(tested(kind, z)),
        None => None,
    }
}

// Their difference.
#[inline(always)]
fn difference(kind: Kind, a: i64, b: i64) -> Option<Short>
    ensures { IfSome result (λ r. widened r ≡ numbered kind (a -ℤ b)) }
{
    match a.checked_sub(b) {
        Some(z) => Some(tested(kind, z)),
        None => None,
    }
}

// Their product.
#[inline(always)]
fn product(kind: Kind, a: i64, b: i64) -> Option<Short>
    ensures { IfSome result (λ r. widened r ≡ numbered kind (a *ℤ b)) }
{
    match a.checked_mul(b) {
        Some(z) => Some(tested(kind, z)),
        None => None,
    }
}

// What an operator between two numbers of `i64` gives, where 64 bits are enough for it. None for other operands and other operators.
#[inline(always)]
fn quickly(operator: Binary, kind: Kind, x: Short, y: Short) -> Option<Short>
    requires { IsTrue (operands_fit operator kind (value_in x) (value_in y)) }
    ensures { IfSome result (λ r. Operates operator kind (value_in x) (value_in y) (widened r)) }
{
    let Short::Int(a) = x else {
        return None;
    };
    let Short::Int(b) = y else {
        return None;
    };
    match operator {
        Binary::Add => sum(kind, a, b),
        Binary::Sub => difference(kind, a, b),
        Binary::Mul => product(kind, a, b),
        Binary::Less => Some(truth(a < b)),
        Binary::LessEqual => Some(truth(a <= b)),
        Binary::Greater => Some(truth(b < a)),
        Binary::GreaterEqual => Some(truth(b <= a)),
        Binary::Equal => Some(truth(a == b)),
        Binary::Different => Some(truth(a != b)),
        _ => None,
    }
}

// What an operator between two values gives.
#[inline(never)]
fn exactly(operator: Binary, kind: Kind, x: Short, y: Short) -> Short
    requires { IsTrue (operands_fit operator kind (value_in x) (value_in y)) }
    ensures { Operates operator kind (value_in x) (value_in y) (widened result) }
{
    narrow(operate(operator, kind, value_of(x), value_of(y)))
}

/// What an operator between two values gives. It stands in the machine itself, which has the operands in registers.
#[inline(always)]
pub(crate) fn joined(operator: Binary, kind: Kind, x: Short, y: Short) -> Short
    requires { IsTrue (operands_fit operator kind (value_in x) (value_in y)) }
    ensures { Operates operator kind (value_in x) (value_in y) (widened result) }
{
    match quickly(operator, kind, x, y) {
        Some(made) => made,
        None => exactly(operator, kind, x, y),
    }
}

// A number with the other sign.
#[inline(never)]
fn opposite(kind: Kind, x: Short) -> Short
    requires { IsTrue (operand_fits prefix.Minus kind (value_in x)) }
    ensures { Negates prefix.Minus kind (value_in x) (widened result) }
{
    narrow(negate(Prefix::Minus, kind, value_of(x)))
}

/// What an operator before a value gives.
pub(crate) fn prefixed(operator: Prefix, kind: Kind, x: Short) -> Short
    requires { IsTrue (operand_fits operator kind (value_in x)) }
    ensures { Negates operator kind (value_in x) (widened result) }
{
    match operator {
        Prefix::Not => truth(!is_true(x)),
        Prefix::Minus => opposite(kind, x),
    }
}
