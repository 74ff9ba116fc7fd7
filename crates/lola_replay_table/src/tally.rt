//! What a window makes of the values in it, gathered from the last to the first.

ghost use Rattle.std.specs.Prelude.{◌≡◌, ◌∷◌, ◌&&◌, ◌||◌, ℤ, List, [], IfOk, Some, map};
ghost use Rattle.lola_value.specs.declared.text.Field.{Field};
ghost use Rattle.lola_model.specs.Windows.{aggregated, greater, lesser, mean_of, number_of, truth_of};
ghost use Rattle.lola_replay_table.specs.Answers.{the_answer, the_field};
ghost use Rattle.lola_replay_table.specs.Tallies.{IsTally, greatest_with, least_with, number_or_missing};

use crate::answer::{LentAnswer, LentField};
use crate::operators::{calculation, tested};
use lola_model::spec::Agg;
use lola_value::text::Memory;
use lola_value::value::Kind;

/// What is gathered of the values of a window.
#[derive(Clone, Copy)]
pub struct Tally {
    pub count: u64,
    pub total: i128,
    pub least: Option<i128>,
    pub greatest: Option<i128>,
    pub all: bool,
    pub some: bool,
}

// The number of a value, 0 of one that is none.
fn number(value: LentField) -> i128
    ensures { result ≡ number_of (the_field value.entry) }
{
    match value {
        LentField::Int(z) => z,
        _ => 0,
    }
}

// The truth of a value, false of one that has none.
fn truth(value: LentField) -> bool
    ensures { result ≡ truth_of (the_field value.entry) }
{
    match value {
        LentField::Bool(b) => b,
        _ => false,
    }
}

// The lesser of two numbers.
fn lesser(a: i128, b: i128) -> i128
    ensures { result ≡ lesser a b }
{
    if a <= b { a } else { b }
}

// The greater of two.
fn greater(a: i128, b: i128) -> i128
    ensures { result ≡ greater a b }
{
    if a <= b { b } else { a }
}

// The lesser of a number and another, if there is one.
fn least_with(other: Option<i128>, number: i128) -> i128
    ensures { result ≡ least_with other number }
{
    match other {
        Some(least) => lesser(number, least),
        None => number,
    }
}

// The greater of the two.
fn greatest_with(other: Option<i128>, number: i128) -> i128
    ensures { result ≡ greatest_with other number }
{
    match other {
        Some(greatest) => greater(number, greatest),
        None => number,
    }
}

// A number as an outcome, if there is one.
fn number_or_missing(number: Option<i128>) -> LentAnswer<'static>
    ensures { the_answer result ≡ number_or_missing number }
{
    match number {
        Some(z) => LentAnswer::Given(LentField::Int(z)),
        None => LentAnswer::Missing,
    }
}

impl Tally {
    ghost use Rattle.lola_replay_table.specs.Tallies.{IsTally};

    /// Of no values.
    pub fn empty() -> Tally
        ensures { IsTally [] result }
    {
        Tally {
            count: 0,
            total: 0,
            least: None,
            greatest: None,
            all: true,
            some: false,
        }
    }
}

/// With one more value in front of the others. `Memory` stands also for a count or a total that has no room in 64 and in 128 bits,
/// which no values of the kinds of a plan come to.
pub fn with_value(tally: &Tally, value: LentField) -> Result<Tally, Memory>
    ensures { (vs : List Field) → IsTally vs tally.now → IfOk result (IsTally (the_field value.entry ∷ vs)) }
{
    let number = number(value);
    let truth = truth(value);
    let Some(count) = tally.count.checked_add(1) else {
        return Err(Memory);
    };
    let Some(total) = number.checked_add(tally.total) else {
        return Err(Memory);
    };
    Ok(with_number(tally, count, total, number, truth))
}

// With one more number and truth in front, and this count and total.
fn with_number(tally: &Tally, count: u64, total: i128, number: i128, truth: bool) -> Tally
    ensures count { result.count ≡ count }
    ensures total { result.total ≡ total }
    ensures least { result.least ≡ Some (least_with tally.now.least number) }
    ensures greatest { result.greatest ≡ Some (greatest_with tally.now.greatest number) }
    ensures all { result.all ≡ (truth && tally.now.all) }
    ensures some { result.some ≡ (truth || tally.now.some) }
{
    Tally {
        count,
        total,
        least: Some(least_with(tally.least, number)),
        greatest: Some(greatest_with(tally.greatest, number)),
        all: truth && tally.all,
        some: truth || tally.some,
    }
}

// The total divided by the count, cut toward zero; of nothing missing.
fn mean(tally: &Tally) -> LentAnswer<'static>
    ensures { (vs : List Field) → IsTally vs tally.now → the_answer result ≡ mean_of (map number_of vs) }
{
    if tally.count == 0 {
        LentAnswer::Missing
    } else {
        LentAnswer::Given(LentField::Int(tally.total / tally.count as i128))
    }
}

/// What the values come to.
pub fn answer(tally: &Tally, aggregation: Agg, kind: Kind) -> LentAnswer<'static>
    ensures { (vs : List Field) → IsTally vs tally.now → the_answer result ≡ aggregated aggregation kind vs }
{
    match aggregation {
        Agg::Count => LentAnswer::Given(LentField::Int(tally.count as i128)),
        Agg::Sum => calculation(tested(kind, tally.total)),
        Agg::Min => number_or_missing(tally.least),
        Agg::Max => number_or_missing(tally.greatest),
        Agg::Avg => mean(tally),
        Agg::Forall => LentAnswer::Given(LentField::Bool(tally.all)),
        Agg::Exists => LentAnswer::Given(LentField::Bool(tally.some)),
    }
}
