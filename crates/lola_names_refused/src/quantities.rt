//! Durations and rates as they are written.

ghost use Rattle.std.specs.Prelude.{◌≡◌, ◌+◌, ◌*◌, ◌/◌, ◌%◌, ◌^◌, ◌<◌, ◌≤◌, IsTrue};
ghost use Rattle.lola_value.specs.Rate.{IsLowest};
ghost use Rattle.lola_names_refused.specs.Quantities as quantity;

use lola_model::spec::WrittenRate;
use lola_parser_grammar::literals::{Quantity, QuantityUnit};
use lola_value::rate::{Rate, wide_gcd};

// One more than the greatest number of 18 digits, which is the greatest numerator of a rate too.
const TOO_LONG: u128 = 1_000_000_000_000_000_000;

// The greatest duration in nanoseconds, and the greatest denominator of a rate.
const GREATEST: u128 = 4_000_000_000_000_000_000;

fn is_short(q: &Quantity) -> bool
    ensures value { result ≡ quantity.is_short q.now }
    ensures digits { IsTrue result → q.now.digits < 1000000000000000000 }
    ensures decimals { IsTrue result → q.now.decimals ≤ 18 }
{
    q.count <= 18 && q.decimals <= 18 && q.digits < TOO_LONG
}

/// The nanoseconds of a unit of time, and 0 for a unit of frequency.
fn unit_span(unit: QuantityUnit) -> u128
    ensures value { result ≡ quantity.unit_span unit }
    ensures small { result ≤ 86400000000000 }
{
    match unit {
        QuantityUnit::Nanoseconds => 1,
        QuantityUnit::Microseconds => 1_000,
        QuantityUnit::Milliseconds => 1_000_000,
        QuantityUnit::Seconds => 1_000_000_000,
        QuantityUnit::Minutes => 60_000_000_000,
        QuantityUnit::Hours => 3_600_000_000_000,
        QuantityUnit::Days => 86_400_000_000_000,
        QuantityUnit::Millihertz
        | QuantityUnit::Hertz
        | QuantityUnit::Kilohertz
        | QuantityUnit::Megahertz => 0,
    }
}

/// A power of ten.
fn power_of_ten(exponent: usize) -> u128
    requires { exponent ≤ 18 }
    ensures value { result ≡ 10 ^ exponent }
    ensures positive { 0 < result }
    ensures small { result ≤ 1000000000000000000 }
{
    10u128.pow(exponent as u32)
}

fn whole_span(n: u128, parts: u128) -> u64
    requires { 0 < parts }
    ensures { result ≡ quantity.whole_span n parts }
{
    let whole = n / parts;
    if n % parts == 0 && whole <= GREATEST {
        whole as u64
    } else {
        0
    }
}

/// The nanoseconds of a duration, and 0 where it is out of range or a rate.
pub fn span(q: &Quantity) -> u64
    ensures { result ≡ quantity.span_of q.now }
{
    if !is_short(q) {
        return 0;
    }
    whole_span(q.digits * unit_span(q.unit), power_of_ten(q.decimals))
}

/// A fraction.
#[derive(Clone, Copy)]
struct Fraction {
    num: u128,
    den: u128,
}

/// What a quantity says in Hz.
fn in_hertz(q: &Quantity) -> Fraction
    ensures num { result.num ≡ (quantity.fraction_of q.now).num }
    ensures den { result.den ≡ (quantity.fraction_of q.now).den }
{
    if !is_short(q) {
        return Fraction { num: 0, den: 0 };
    }
    let digits = q.digits;
    let scale = power_of_ten(q.decimals);
    let (num, den) = match q.unit {
        QuantityUnit::Millihertz => (digits, 1000 * scale),
        QuantityUnit::Hertz => (digits, scale),
        QuantityUnit::Kilohertz => (1000 * digits, scale),
        QuantityUnit::Megahertz => (1_000_000 * digits, scale),
        QuantityUnit::Nanoseconds
        | QuantityUnit::Microseconds
        | QuantityUnit::Milliseconds
        | QuantityUnit::Seconds
        | QuantityUnit::Minutes
        | QuantityUnit::Hours
        | QuantityUnit::Days => (1_000_000_000, u128::from(span(q))),
    };
    Fraction { num, den }
}

/// A rate in lowest terms as it is noted.
fn noted(num: u128, den: u128) -> WrittenRate
    requires num { 0 < num }
    requires den { 0 < den }
    requires lowest { IsLowest (record { num = num; den = den }) }
    ensures { quantity.IsNotedAs (record { num = num; den = den }) result }
{
    if num > TOO_LONG || den > GREATEST || den * 1_000_000_000 > GREATEST * num {
        return WrittenRate::OutOfRange;
    }
    if num > 1_000_000 * den {
        return WrittenRate::TooFast;
    }
    match Rate::create(num as u64, den as u64) {
        Some(rate) => WrittenRate::Of(rate),
        None => WrittenRate::OutOfRange,
    }
}

/// A fraction in Hz as it is noted.
fn written(num: u128, den: u128) -> WrittenRate
    ensures { quantity.IsWrittenAs num den result }
{
    if num == 0 || den == 0 {
        return WrittenRate::OutOfRange;
    }
    let common = wide_gcd(num, den);
    noted(num / common, den / common)
}

/// A rate, or a duration as a period, as it is noted: out of range, too fast, or a rate that a clause can have.
pub fn rate(q: &Quantity) -> WrittenRate
    ensures { quantity.IsWrittenAs (quantity.fraction_of q.now).num (quantity.fraction_of q.now).den result }
{
    let fraction = in_hertz(q);
    written(fraction.num, fraction.den)
}
