//! A pane, and what a value counts for in it.

ghost use Rattle.std.specs.Prelude.{◌≡◌, ◌≤◌, ◌+◌, nat_le};
ghost use Rattle.lola_panes.specs.Weights.{number_at, weight_of_value, better, is_better};

use lola_model::spec::Agg;
use lola_value::value::Value;

/// What a window needs of the values of one pane, which are those whose offset from the start is above
/// `(number - 1)` times the length of a pane and at most `number` times that. Where the answer is one of the values, a
/// pane stands only for those that no later value is as good as.
#[derive(Clone, Copy)]
pub struct Pane {
    pub number: u64,
    /// How many values came before its own.
    pub count_before: u64,
    /// The total of the values before its own.
    pub total_before: i128,
    /// The least of its values, or the greatest.
    pub extreme: i128,
}

/// The number of the pane in which an offset lies.
pub fn pane_number(offset: u64, pane: u64) -> u64
    requires { 1 ≤ pane }
    ensures { result ≡ number_at pane offset }
{
    if offset == 0 {
        0
    } else {
        (offset - 1) / pane + 1
    }
}

/// Whether a pane has left the window of `count` panes that ends with pane `k`.
pub fn is_past(number: u64, count: u32, k: u64) -> bool
    ensures { result ≡ nat_le (number + count) k }
{
    number as u128 + count as u128 <= k as u128
}

/// What a value counts for: its number, or 1 for true where the aggregation is of truth values.
pub fn weight(aggregation: Agg, value: Value) -> i128
    ensures { result ≡ weight_of_value aggregation value }
{
    match aggregation {
        Agg::Forall | Agg::Exists => match value {
            Value::Bool(b) => b as i128,
            _ => 0,
        },
        _ => match value {
            Value::Int(z) => z,
            _ => 0,
        },
    }
}

/// The better of two numbers: the greater one for `Max`, and else the lesser one.
pub fn better_of(aggregation: Agg, a: i128, b: i128) -> i128
    ensures { result ≡ better aggregation a b }
{
    match aggregation {
        Agg::Max => if a <= b { b } else { a },
        _ => if a <= b { a } else { b },
    }
}

/// Whether the first of two numbers is better than the second: equal ones are not.
pub fn beats(aggregation: Agg, a: i128, b: i128) -> bool
    ensures { result ≡ is_better aggregation a b }
{
    match aggregation {
        Agg::Max => b < a,
        _ => a < b,
    }
}
