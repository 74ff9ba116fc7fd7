//! Operators, on values.

ghost use Rattle.std.specs.Prelude.{◌≡◌, IsTrue};
ghost use Rattle.lola_value.specs.Kinds.{calculated, is_outcome_of};
ghost use Rattle.lola_value.specs.Naming.{Naming, IsNaming, IsHeld, IsHeldIn, read, read_outcome};
ghost use Rattle.lola_value.specs.declared.value.Outcome.TheVariants as outcome;
ghost use Rattle.lola_value.specs.declared.value.Value.TheVariants as value;
ghost use Rattle.lola_model.specs.Denotation.{operated, negated};
ghost use Rattle.lola_expr.specs.Operands.{number_in, truth_in, operands_fit, operand_fits, decides};

use lola_model::expr::{Binary, Prefix};
use lola_value::arithmetic::{add, div, mul, neg, rem, sub};
use lola_value::params::equal;
use lola_value::value::{FaultKind, Kind, Outcome, Value};

/// The number that a value is; 0 for another.
fn number(v: Value) -> i128
    ensures { result ≡ number_in v }
{
    match v {
        Value::Bool(_) => 0,
        Value::Int(z) => z,
        Value::Text(_) => 0,
    }
}

/// The truth value that a value is; false for another.
pub fn truth(v: Value) -> bool
    ensures { result ≡ truth_in v }
{
    match v {
        Value::Bool(b) => b,
        Value::Int(_) => false,
        Value::Text(_) => false,
    }
}

/// What arithmetic came to, as an outcome.
fn calculation(r: Result<i128, FaultKind>) -> Outcome
    ensures value { (names : Naming) → read_outcome names result ≡ calculated r }
    ensures held { (names : Naming) → IsHeldIn names result }
{
    match r {
        Ok(z) => Outcome::Value(Value::Int(z)),
        Err(k) => Outcome::Fault(k),
    }
}

/// A truth value, as an outcome.
fn truth_of(b: bool) -> Outcome
    ensures { result ≡ outcome.Value (value.Bool b) }
{
    Outcome::Value(Value::Bool(b))
}

/// What an operator between two values gives, in the kind of the whole. Division cuts toward zero, and what it leaves has the sign
/// of the dividend. Of `&&` and `||` the left value is one that does not decide alone, so the right value is the outcome.
pub fn operate(operator: Binary, kind: Kind, a: Value, b: Value) -> Outcome
    requires { IsTrue (operands_fit operator kind a b) }
    ensures value { (names : Naming) → IsNaming names → IsHeld names a → IsHeld names b
        → read_outcome names result ≡ operated operator kind (read names a) (read names b) }
    ensures held { (names : Naming) → IsHeld names b → IsHeldIn names result }
    ensures kind { IsTrue (is_outcome_of kind result) }
{
    match operator {
        Binary::Add => calculation(add(kind, number(a), number(b))),
        Binary::Sub => calculation(sub(kind, number(a), number(b))),
        Binary::Mul => calculation(mul(kind, number(a), number(b))),
        Binary::Div => calculation(div(kind, number(a), number(b))),
        Binary::Rem => calculation(rem(kind, number(a), number(b))),
        Binary::Less => truth_of(number(a) < number(b)),
        Binary::LessEqual => truth_of(number(a) <= number(b)),
        Binary::Greater => truth_of(number(b) < number(a)),
        Binary::GreaterEqual => truth_of(number(b) <= number(a)),
        Binary::Equal => truth_of(equal(a, b)),
        Binary::Different => truth_of(!equal(a, b)),
        Binary::And => Outcome::Value(b),
        Binary::Or => Outcome::Value(b),
    }
}

/// What an operator before a value gives, in the kind of the whole.
pub fn negate(operator: Prefix, kind: Kind, a: Value) -> Outcome
    requires { IsTrue (operand_fits operator kind a) }
    ensures value { (names : Naming) → read_outcome names result ≡ negated operator kind (read names a) }
    ensures held { (names : Naming) → IsHeldIn names result }
    ensures kind { IsTrue (is_outcome_of kind result) }
{
    match operator {
        Prefix::Not => truth_of(!truth(a)),
        Prefix::Minus => calculation(neg(kind, number(a))),
    }
}

/// Whether the left value is the outcome, and the right operand is not evaluated.
pub fn is_decided(operator: Binary, a: Value) -> bool
    ensures { result ≡ decides operator a }
{
    match operator {
        Binary::And => match a {
            Value::Bool(b) => !b,
            Value::Int(_) => false,
            Value::Text(_) => false,
        },
        Binary::Or => truth(a),
        _ => false,
    }
}
