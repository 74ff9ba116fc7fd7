//! Answers of a window, from totals or from the best of its values.

ghost use Rattle.std.specs.Prelude.{◌≡◌, ◌&&◌, nat_lt, IsTrue, ◌+ℤ◌, ◌-ℤ◌, FitsSigned};
ghost use Rattle.std.specs.Int.{w128};
ghost use Rattle.lola_value.specs.Naming.{Naming, read_outcome};
ghost use Rattle.lola_value.specs.Arithmetic.{within};
ghost use Rattle.lola_value.specs.Kinds.{is_integer, is_outcome_of};
ghost use Rattle.lola_model.specs.Store.{gives_kind};
ghost use Rattle.lola_model.specs.Typing.{takes};
ghost use Rattle.lola_panes.specs.Answers as answers;

use lola_model::spec::Agg;
use lola_value::arithmetic::range;
use lola_value::value::{FaultKind, Kind, Outcome, Value};

/// A sum, where 128 bits hold it.
pub fn plus(a: i128, b: i128) -> i128
    ensures { FitsSigned w128 (a +ℤ b) → result ≡ a +ℤ b }
{
    match a.checked_add(b) {
        None => a,
        Some(sum) => sum,
    }
}

/// A difference, where 128 bits hold it.
pub fn minus(a: i128, b: i128) -> i128
    ensures { FitsSigned w128 (a -ℤ b) → result ≡ a -ℤ b }
{
    match a.checked_sub(b) {
        None => a,
        Some(difference) => difference,
    }
}

/// A number, where the kind has it, and the fault of one out of range else.
pub fn tested(kind: Kind, z: i128) -> Outcome
    ensures value { (names : Naming) → read_outcome names result ≡ within kind z }
    ensures kind { IsTrue (is_integer kind) → IsTrue (is_outcome_of kind result) }
{
    let (least, greatest) = range(kind);
    if least <= z && z <= greatest {
        Outcome::Value(Value::Int(z))
    } else {
        Outcome::Fault(FaultKind::Overflow)
    }
}

/// The answer from the best of the values; missing of none.
pub fn best_answer(kind: Kind, best: Option<i128>) -> Outcome
    ensures value { (names : Naming) → read_outcome names result ≡ answers.best_answer kind best }
    ensures kind { IsTrue (is_integer kind) → IsTrue (is_outcome_of kind result) }
{
    match best {
        None => Outcome::Missing,
        Some(z) => tested(kind, z),
    }
}

/// The answer from the number of the values and their total.
pub fn total_answer(aggregation: Agg, kind: Kind, count: u64, total: i128) -> Outcome
    ensures value { (names : Naming) → read_outcome names result ≡ answers.total_answer aggregation kind count total }
    ensures kind { IsTrue (takes aggregation kind) → IsTrue (is_outcome_of (gives_kind aggregation kind) result) }
{
    match aggregation {
        Agg::Count => Outcome::Value(Value::Int(count as i128)),
        Agg::Sum => tested(kind, total),
        Agg::Avg => {
            if count == 0 {
                Outcome::Missing
            } else {
                tested(kind, total / count as i128)
            }
        }
        Agg::Forall => Outcome::Value(Value::Bool(total == count as i128)),
        Agg::Exists => Outcome::Value(Value::Bool(total > 0)),
        Agg::Min | Agg::Max => Outcome::Missing,
    }
}

/// Whether the answer is one of the values.
pub fn is_extreme(aggregation: Agg) -> bool
    ensures { result ≡ answers.is_extreme aggregation }
{
    match aggregation {
        Agg::Min | Agg::Max => true,
        _ => false,
    }
}

/// Whether the window that ends with pane `k` must not reach before the start, and does.
pub fn is_early(exact: bool, k: u64, count: u32) -> bool
    ensures { result ≡ (exact && nat_lt k count) }
{
    exact && k < count as u64
}
