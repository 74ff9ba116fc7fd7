//! Truth values and numbers of kinds, on outcomes of 16 bytes.

ghost use Rattle.std.specs.Prelude.{◌≡◌};
ghost use Rattle.lola_value.specs.Arithmetic.{is_within};
ghost use Rattle.lola_value.specs.Shorts.{value_in, widened};
ghost use Rattle.lola_expr.specs.Operands.{truth_in};
ghost use Rattle.lola_expr.specs.Numbered.{numbered};

use lola_value::short::Short;
use lola_value::value::Kind;

/// The truth value that it is; false for what is none.
pub(crate) fn is_true(o: Short) -> bool
    ensures { result ≡ truth_in (value_in o) }
{
    match o {
        Short::True => true,
        _ => false,
    }
}

// Whether the kind has a number.
fn has(kind: Kind, z: i64) -> bool
    ensures { result ≡ is_within kind z }
{
    match kind {
        Kind::Int64 => true,
        Kind::Int8 => -128 <= z && z <= 127,
        Kind::Int16 => -32768 <= z && z <= 32767,
        Kind::Int32 => -2147483648 <= z && z <= 2147483647,
        Kind::UInt8 => 0 <= z && z <= 255,
        Kind::UInt16 => 0 <= z && z <= 65535,
        Kind::UInt32 => 0 <= z && z <= 4294967295,
        Kind::UInt64 => 0 <= z,
        Kind::Bool => 0 <= z && z <= 0,
        Kind::Text => 0 <= z && z <= 0,
    }
}

// A number, if the kind has it, and else a fault.
fn tested_by(kind: Kind, z: i64) -> Short
    ensures { widened result ≡ numbered kind z }
{
    if has(kind, z) {
        Short::Int(z)
    } else {
        Short::Overflow
    }
}

/// A number, if the kind has it, and else a fault. The kind of 64 bits has it, and is asked about first.
#[inline(always)]
pub(crate) fn tested(kind: Kind, z: i64) -> Short
    ensures { widened result ≡ numbered kind z }
{
    match kind {
        Kind::Int64 => Short::Int(z),
        _ => tested_by(kind, z),
    }
}
