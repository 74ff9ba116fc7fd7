//! A window's answer, from one pass over the values in it.

ghost use Rattle.std.specs.Prelude.{◌≡◌, ◌-◌, ◌^◌, ◌<◌, ◌&&◌, ◌||◌, pos, ◌+ℤ◌, ◌≤ℤ◌, IsTrue, map};
ghost use Rattle.lola_value.specs.Naming.{Naming, read_outcome};
ghost use Rattle.lola_model.specs.Store.{gives_kind, is_outcome_of};
ghost use Rattle.lola_model.specs.Typing.{takes};
ghost use Rattle.lola_model.specs.Windows.{aggregated};
ghost use Rattle.lola_model.specs.Windows as windows;
ghost use Rattle.lola_store.specs.Tallies.{number_in, truth_in, noted, tallied, empty, inside, AllSmall, AllOf};
ghost use Rattle.lola_store.specs.Tallies as tallies;

use lola_model::spec::Agg;
use lola_value::arithmetic::range;
use lola_value::value::{FaultKind, Kind, Outcome, Value};

/// A value of an instance, and the time of its step.
#[derive(Clone, Copy)]
pub struct Timed {
    pub at: u64,
    pub item: Value,
}

/// What is known of the values that a window has.
#[derive(Clone, Copy)]
pub struct Tally {
    pub many: u64,
    pub whole: i128,
    pub lowest: Option<i128>,
    pub highest: Option<i128>,
    pub every: bool,
    pub any: bool,
}

/// The number of a value, 0 of a truth or a text.
fn number(v: Value) -> i128
    ensures { result ≡ number_in v }
{
    match v {
        Value::Int(z) => z,
        _ => 0,
    }
}

/// The truth of a value.
fn truth(v: Value) -> bool
    ensures { result ≡ truth_in v }
{
    match v {
        Value::Bool(b) => b,
        _ => false,
    }
}

/// The sum with one more value.
fn whole_with(tally: &Tally, v: Value) -> i128
    requires low { pos 0 ≤ℤ ((tally.now.whole +ℤ number_in v) +ℤ pos (2 ^ 127)) }
    requires high { (tally.now.whole +ℤ number_in v) ≤ℤ pos (2 ^ 127 - 1) }
    ensures { result ≡ tally.now.whole +ℤ number_in v }
{
    let z = number(v);
    tally.whole + z
}

/// The least number with one more value.
fn lowest_with(tally: &Tally, v: Value) -> Option<i128>
    ensures { result ≡ Some (tallies.lower tally.now.lowest (number_in v)) }
{
    let z = number(v);
    match tally.lowest {
        None => Some(z),
        Some(y) => { if y <= z { Some(y) } else { Some(z) } }
    }
}

/// The greatest number with one more value.
fn highest_with(tally: &Tally, v: Value) -> Option<i128>
    ensures { result ≡ Some (tallies.higher tally.now.highest (number_in v)) }
{
    let z = number(v);
    match tally.highest {
        None => Some(z),
        Some(y) => { if y <= z { Some(z) } else { Some(y) } }
    }
}

/// Whether both hold.
fn both(a: bool, b: bool) -> bool
    ensures { result ≡ (a && b) }
{
    a && b
}

/// Whether one holds.
fn one_of(a: bool, b: bool) -> bool
    ensures { result ≡ (a || b) }
{
    a || b
}

/// With one more value.
fn note(tally: &Tally, v: Value) -> Tally
    requires many { tally.now.many < 2 ^ 63 }
    requires low { pos 0 ≤ℤ ((tally.now.whole +ℤ number_in v) +ℤ pos (2 ^ 127)) }
    requires high { (tally.now.whole +ℤ number_in v) ≤ℤ pos (2 ^ 127 - 1) }
    ensures { result ≡ noted tally.now v }
{
    let b = truth(v);
    Tally {
        many: tally.many + 1,
        whole: whole_with(tally, v),
        lowest: lowest_with(tally, v),
        highest: highest_with(tally, v),
        every: both(tally.every, b),
        any: one_of(tally.any, b),
    }
}

/// Of the values in the half-open window of that length that ends now.
fn tally_of(values: &[Timed], over: u64, time: u64) -> Tally
    requires { AllSmall values.now }
    ensures { result ≡ tallied empty (inside over time values.now) }
{
    let mut tally = Tally {
        many: 0,
        whole: 0,
        lowest: None,
        highest: None,
        every: true,
        any: false,
    };
    for x in values {
        if (time as u128) < x.at as u128 + over as u128 {
            tally = note(&tally, x.item);
        }
    }
    tally
}

/// A number, if there is one.
fn number_or_missing(z: Option<i128>) -> Outcome
    ensures { result ≡ tallies.number_or_missing z }
{
    match z {
        None => Outcome::Missing,
        Some(z) => Outcome::Value(Value::Int(z)),
    }
}

/// A sum, where its kind has it.
fn within_kind(kind: Kind, tally: &Tally) -> Outcome
    ensures { result ≡ tallies.within_kind kind tally.now.whole }
{
    let (low, high) = range(kind);
    let z = tally.whole;
    if low <= z && z <= high {
        Outcome::Value(Value::Int(z))
    } else {
        Outcome::Fault(FaultKind::Overflow)
    }
}

/// The mean, cut toward zero.
fn mean(tally: &Tally) -> Outcome
    ensures { result ≡ tallies.mean tally.now }
{
    if tally.many == 0 {
        Outcome::Missing
    } else {
        Outcome::Value(Value::Int(tally.whole / tally.many as i128))
    }
}

/// The answer of an aggregation.
fn answer(how: Agg, kind: Kind, tally: &Tally) -> Outcome
    ensures { result ≡ tallies.answer how kind tally.now }
{
    match how {
        Agg::Count => Outcome::Value(Value::Int(tally.many as i128)),
        Agg::Sum => within_kind(kind, tally),
        Agg::Min => number_or_missing(tally.lowest),
        Agg::Max => number_or_missing(tally.highest),
        Agg::Avg => mean(tally),
        Agg::Forall => Outcome::Value(Value::Bool(tally.every)),
        Agg::Exists => Outcome::Value(Value::Bool(tally.any)),
    }
}

/// The aggregation of those of these values that are in the half-open window of length `over` that ends at `time`.
pub fn aggregate(values: &[Timed], how: Agg, kind: Kind, over: u64, time: u64) -> Outcome
    requires kinds { AllOf kind values.now }
    requires fit { IsTrue (takes how kind) }
    ensures value { (names : Naming) → read_outcome names result ≡ aggregated how kind (windows.values_within over time (map (tallies.read_timed names) values.now)) }
    ensures kind { IsTrue (is_outcome_of (gives_kind how kind) result) }
{
    let tally = tally_of(values, over, time);
    answer(how, kind, &tally)
}
