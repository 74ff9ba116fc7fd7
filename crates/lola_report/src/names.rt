//! The numbers and names of refusals, of malformed lines and of faults, as end lines show them.

ghost use Rattle.std.specs.Prelude.{◌≡◌};
ghost use Rattle.lola_report.specs.Names.{code_number, code_name, malformed_number, malformed_name, fault_number, fault_name};

use lola_model::source::MalformedKind;
use lola_value::front::Code;
use lola_value::value::FaultKind;

/// The number of a code, from 1.
pub fn code_number(code: Code) -> u64
    ensures { result ≡ code_number code }
{
    code as u64
}

pub fn code_name(code: Code) -> &'static str
    ensures { result.now ≡ code_name code }
{
    match code {
        Code::TooLong => "TooLong",
        Code::BadToken => "BadToken",
        Code::Unexpected => "Unexpected",
        Code::TooDeep => "TooDeep",
        Code::Duplicate => "Duplicate",
        Code::Unknown => "Unknown",
        Code::TooMany => "TooMany",
        Code::BadArity => "BadArity",
        Code::WrongType => "WrongType",
        Code::LiteralRange => "LiteralRange",
        Code::NotImplied => "NotImplied",
        Code::NoPacing => "NoPacing",
        Code::PacingTooWide => "PacingTooWide",
        Code::DirectToFiltered => "DirectToFiltered",
        Code::WindowOutsidePeriodic => "WindowOutsidePeriodic",
        Code::WindowTooFine => "WindowTooFine",
        Code::PeriodTooShort => "PeriodTooShort",
        Code::WindowNeedsWholePeriod => "WindowNeedsWholePeriod",
        Code::ZeroCycle => "ZeroCycle",
        Code::LocalWithoutSpawn => "LocalWithoutSpawn",
    }
}

/// The number of a kind of malformed line, from 1.
pub fn malformed_number(kind: MalformedKind) -> u64
    ensures { result ≡ malformed_number kind }
{
    kind as u64
}

pub fn malformed_name(kind: MalformedKind) -> &'static str
    ensures { result.now ≡ malformed_name kind }
{
    match kind {
        MalformedKind::BadHeading => "BadHeading",
        MalformedKind::FieldCount => "FieldCount",
        MalformedKind::BadTime => "BadTime",
        MalformedKind::BadValue => "BadValue",
        MalformedKind::BadText => "BadText",
        MalformedKind::BareCr => "BareCr",
        MalformedKind::RowTooLong => "RowTooLong",
        MalformedKind::TooManyRows => "TooManyRows",
    }
}

/// The number of a kind of fault, from 1.
pub fn fault_number(kind: FaultKind) -> u64
    ensures { result ≡ fault_number kind }
{
    kind as u64
}

pub fn fault_name(kind: FaultKind) -> &'static str
    ensures { result.now ≡ fault_name kind }
{
    match kind {
        FaultKind::Overflow => "Overflow",
        FaultKind::DivZero => "DivZero",
        FaultKind::TooManyInstances => "TooManyInstances",
    }
}
