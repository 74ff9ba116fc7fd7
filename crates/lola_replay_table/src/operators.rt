//! Operators, on lent values.

ghost use Rattle.std.specs.Prelude.{◌≡◌, ◌+ℤ◌, ◌-ℤ◌, ◌*ℤ◌, neg_ℤ, int_div, int_rem, not};
ghost use Rattle.lola_value.specs.Arithmetic.{bytes_equal, divided, fields_equal, within};
ghost use Rattle.lola_value.specs.Kinds.{calculated};
ghost use Rattle.lola_model.specs.Denotation.{negated, operated, truth};
ghost use Rattle.lola_replay_table.specs.Answers.{decides, of_numbers, the_answer, the_field};

use crate::answer::{LentAnswer, LentField};
use lola_model::expr::{Binary, Prefix};
use lola_value::arithmetic::range;
use lola_value::value::{FaultKind, Kind};

/// A number, if the kind has it.
pub fn tested(kind: Kind, z: i128) -> Result<i128, FaultKind>
    ensures { calculated result ≡ within kind z }
{
    let (low, high) = range(kind);
    if low <= z && z <= high {
        Ok(z)
    } else {
        Err(FaultKind::Overflow)
    }
}

// The sum; what 128 bits do not hold is out of each kind's range.
fn sum(kind: Kind, a: i128, b: i128) -> Result<i128, FaultKind>
    ensures { calculated result ≡ within kind (a +ℤ b) }
{
    match a.checked_add(b) {
        Some(z) => tested(kind, z),
        None => Err(FaultKind::Overflow),
    }
}

// The difference.
fn difference(kind: Kind, a: i128, b: i128) -> Result<i128, FaultKind>
    ensures { calculated result ≡ within kind (a -ℤ b) }
{
    match a.checked_sub(b) {
        Some(z) => tested(kind, z),
        None => Err(FaultKind::Overflow),
    }
}

// The product.
fn product(kind: Kind, a: i128, b: i128) -> Result<i128, FaultKind>
    ensures { calculated result ≡ within kind (a *ℤ b) }
{
    match a.checked_mul(b) {
        Some(z) => tested(kind, z),
        None => Err(FaultKind::Overflow),
    }
}

// The quotient, cut toward 0.
fn quotient(kind: Kind, a: i128, b: i128) -> Result<i128, FaultKind>
    ensures { calculated result ≡ divided kind (int_div a b) b }
{
    if b == 0 {
        return Err(FaultKind::DivZero);
    }
    match a.checked_div(b) {
        Some(z) => tested(kind, z),
        None => Err(FaultKind::Overflow),
    }
}

// What the division leaves, with the sign of the dividend.
fn remainder(kind: Kind, a: i128, b: i128) -> Result<i128, FaultKind>
    ensures { calculated result ≡ divided kind (int_rem a b) b }
{
    if b == 0 {
        return Err(FaultKind::DivZero);
    }
    let (rest, _) = a.overflowing_rem(b);
    tested(kind, rest)
}

// The number with the other sign.
fn opposite(kind: Kind, a: i128) -> Result<i128, FaultKind>
    ensures { calculated result ≡ within kind (neg_ℤ a) }
{
    match a.checked_neg() {
        Some(z) => tested(kind, z),
        None => Err(FaultKind::Overflow),
    }
}

/// What arithmetic came to, as an outcome.
pub fn calculation<'a>(r: Result<i128, FaultKind>) -> LentAnswer<'a>
    ensures { the_answer result ≡ calculated r }
{
    match r {
        Ok(z) => LentAnswer::Given(LentField::Int(z)),
        Err(k) => LentAnswer::Fault(k),
    }
}

// A truth value, as an outcome.
fn truth<'a>(b: bool) -> LentAnswer<'a>
    ensures { the_answer result ≡ truth b }
{
    LentAnswer::Given(LentField::Bool(b))
}

// Whether two texts have the same bytes.
fn same_bytes(a: &[u8], b: &[u8]) -> bool
    ensures { result ≡ bytes_equal a.now b.now }
{
    a == b
}

/// Whether two values are the same; values of different sorts never are.
pub fn equal(a: LentField, b: LentField) -> bool
    ensures { result ≡ fields_equal (the_field a.entry) (the_field b.entry) }
{
    match (a, b) {
        (LentField::Absent, LentField::Absent) => true,
        (LentField::Bool(x), LentField::Bool(y)) => x == y,
        (LentField::Int(x), LentField::Int(y)) => x == y,
        (LentField::Text(x), LentField::Text(y)) => same_bytes(x, y),
        _ => false,
    }
}

// What an operator between two numbers gives; one that is not for numbers gives nothing.
fn on_numbers<'a>(operator: Binary, kind: Kind, a: i128, b: i128) -> LentAnswer<'a>
    ensures { the_answer result ≡ of_numbers operator kind a b }
{
    match operator {
        Binary::Add => calculation(sum(kind, a, b)),
        Binary::Sub => calculation(difference(kind, a, b)),
        Binary::Mul => calculation(product(kind, a, b)),
        Binary::Div => calculation(quotient(kind, a, b)),
        Binary::Rem => calculation(remainder(kind, a, b)),
        Binary::Less => truth(a < b),
        Binary::LessEqual => truth(a <= b),
        Binary::Greater => truth(b < a),
        Binary::GreaterEqual => truth(b <= a),
        _ => LentAnswer::Missing,
    }
}

/// What an operator between two values gives, in the kind of the whole. Of `&&` and `||` the left value is one that does not decide
/// alone, so the right value is the outcome.
pub fn operate<'a>(
    operator: Binary,
    kind: Kind,
    a: LentField<'a>,
    b: LentField<'a>,
) -> LentAnswer<'a>
    ensures { the_answer result ≡ operated operator kind (the_field a.entry) (the_field b.entry) }
{
    match operator {
        Binary::Equal => truth(equal(a, b)),
        Binary::Different => truth(!equal(a, b)),
        Binary::And => LentAnswer::Given(b),
        Binary::Or => LentAnswer::Given(b),
        _ => match (a, b) {
            (LentField::Int(x), LentField::Int(y)) => on_numbers(operator, kind, x, y),
            _ => LentAnswer::Missing,
        },
    }
}

/// What an operator before a value gives, in the kind of the whole.
pub fn negate<'a>(operator: Prefix, kind: Kind, a: LentField<'a>) -> LentAnswer<'a>
    ensures { the_answer result ≡ negated operator kind (the_field a.entry) }
{
    match (operator, a) {
        (Prefix::Not, LentField::Bool(b)) => truth(!b),
        (Prefix::Minus, LentField::Int(z)) => calculation(opposite(kind, z)),
        _ => LentAnswer::Missing,
    }
}

/// Whether the left value is the outcome, and the right operand is not evaluated.
pub fn is_decided(operator: Binary, a: LentField) -> bool
    ensures { result ≡ decides operator (the_field a.entry) }
{
    match (operator, a) {
        (Binary::And, LentField::Bool(b)) => !b,
        (Binary::Or, LentField::Bool(b)) => b,
        _ => false,
    }
}
