//! Outcomes of 16 bytes.

ghost use Rattle.std.specs.Prelude.{◌≡◌, ◌↔◌, None, IfSome, IsNone};
ghost use Rattle.lola_value.specs.Arithmetic.{is_within};
ghost use Rattle.lola_value.specs.declared.value.Kind.TheVariants as kind;
ghost use Rattle.lola_value.specs.declared.value.Outcome.TheVariants as outcome;
ghost use Rattle.lola_value.specs.declared.value.Value.TheVariants as value;
ghost use Rattle.lola_value.specs.Shorts.{IsShort, IsShortValue, has_value, short_by, short_of, short_of_outcome, value_in, widened};

use crate::value::{FaultKind, Outcome, TextId, Value};

/// An outcome in 16 bytes: one that says its sort, and a number of 64 bits, of which no kind has more. An `Outcome` has 48, since its
/// numbers have 128 bits, in which all arithmetic is exact. Truth values and faults are sorts of their own, so that a copy is two words.
#[derive(Clone, Copy)]
pub enum Short {
    False,
    True,
    /// A number from the least to the greatest of `i64`.
    Int(i64),
    /// A number above these.
    Large(u64),
    Text(TextId),
    Missing,
    Overflow,
    DivZero,
    TooManyInstances,
    Poison,
}

/// The outcome that it stands for.
pub fn widen(o: Short) -> Outcome
    ensures { result ≡ widened o }
{
    match o {
        Short::False => Outcome::Value(Value::Bool(false)),
        Short::True => Outcome::Value(Value::Bool(true)),
        Short::Int(z) => Outcome::Value(Value::Int(z as i128)),
        Short::Large(z) => Outcome::Value(Value::Int(z as i128)),
        Short::Text(id) => Outcome::Value(Value::Text(id)),
        Short::Missing => Outcome::Missing,
        Short::Overflow => Outcome::Fault(FaultKind::Overflow),
        Short::DivZero => Outcome::Fault(FaultKind::DivZero),
        Short::TooManyInstances => Outcome::Fault(FaultKind::TooManyInstances),
        Short::Poison => Outcome::Poison,
    }
}

/// The value that it is; false for what is none.
pub fn value_of(o: Short) -> Value
    ensures { result ≡ value_in o }
{
    match o {
        Short::True => Value::Bool(true),
        Short::Int(z) => Value::Int(z as i128),
        Short::Large(z) => Value::Int(z as i128),
        Short::Text(id) => Value::Text(id),
        _ => Value::Bool(false),
    }
}

/// Whether it is a value.
pub fn is_value(o: Short) -> bool
    ensures { result ≡ has_value o }
{
    match o {
        Short::Missing => false,
        Short::Overflow => false,
        Short::DivZero => false,
        Short::TooManyInstances => false,
        Short::Poison => false,
        _ => true,
    }
}

/// A truth value.
pub fn truth(b: bool) -> Short
    ensures { widened result ≡ outcome.Value (value.Bool b) }
{
    if b { Short::True } else { Short::False }
}

/// A value in short.
pub fn narrow_value(v: Value) -> Short
    requires { IsShortValue v }
    ensures { widened result ≡ outcome.Value v }
{
    match v {
        Value::Bool(b) => truth(b),
        Value::Int(z) => {
            if z > 9223372036854775807 {
                Short::Large(z as u64)
            } else {
                Short::Int(z as i64)
            }
        }
        Value::Text(id) => Short::Text(id),
    }
}

/// An outcome in short.
pub fn narrow(o: Outcome) -> Short
    requires { IsShort o }
    ensures { widened result ≡ o }
{
    match o {
        Outcome::Value(v) => narrow_value(v),
        Outcome::Missing => Short::Missing,
        Outcome::Fault(FaultKind::Overflow) => Short::Overflow,
        Outcome::Fault(FaultKind::DivZero) => Short::DivZero,
        Outcome::Fault(FaultKind::TooManyInstances) => Short::TooManyInstances,
        Outcome::Poison => Short::Poison,
    }
}

// Whether 64 bits hold a number with a sign.
fn is_word(z: i128) -> bool
    ensures { result ≡ is_within kind.Int64 z }
{
    -9223372036854775808 <= z && z <= 9223372036854775807
}

// Whether 64 bits hold it without one.
fn is_count(z: i128) -> bool
    ensures { result ≡ is_within kind.UInt64 z }
{
    0 <= z && z <= 18446744073709551615
}

// A number in short. None for one that no kind has.
fn short_number(z: i128) -> Option<Short>
    ensures { result ≡ short_by (is_within kind.Int64 z) (is_within kind.UInt64 z) z }
{
    if is_word(z) {
        Some(Short::Int(z as i64))
    } else if is_count(z) {
        Some(Short::Large(z as u64))
    } else {
        None
    }
}

/// A value in short, whatever it is. None for a number that no kind has.
pub fn short_value(v: Value) -> Option<Short>
    ensures { result ≡ short_of v }
{
    match v {
        Value::Bool(true) => Some(Short::True),
        Value::Bool(false) => Some(Short::False),
        Value::Int(z) => short_number(z),
        Value::Text(id) => Some(Short::Text(id)),
    }
}

/// The same of an outcome.
pub fn short_outcome(o: Outcome) -> Option<Short>
    ensures stands { IfSome result (λ s. widened s ≡ o) }
    ensures none { IsNone result ↔ (short_of_outcome o ≡ None) }
{
    match o {
        Outcome::Value(v) => short_value(v),
        _ => Some(narrow(o)),
    }
}
