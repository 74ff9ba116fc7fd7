//! What a window answers where no instance lives.

ghost use Rattle.std.specs.Prelude.{◌≡◌, ◌*◌, ◌&&◌, [], nat_lt, if◌then◌else◌, IsTrue};
ghost use Rattle.lola_value.specs.Answer.{Missing};
ghost use Rattle.lola_value.specs.Kinds.{is_outcome_of};
ghost use Rattle.lola_value.specs.Naming.{Naming, read_outcome};
ghost use Rattle.lola_model.specs.Store.{gives_kind};
ghost use Rattle.lola_model.specs.Typing.{takes};
ghost use Rattle.lola_model.specs.Windows.{aggregated};

use lola_instances_one::window::WindowPanes;
use lola_model::spec::Agg;
use lola_value::value::{Kind, Outcome, Value};

/// Whether a window is exact and its whole length has not passed since the start.
fn is_early(w: &WindowPanes, offset: u64) -> bool
    ensures { result ≡ (w.now.exact && nat_lt offset (w.now.count * w.now.pane)) }
{
    w.exact && (offset as u128) < w.count as u128 * w.pane as u128
}

/// The fold of no values.
fn fold_of_none(aggregation: Agg, _kind: Kind) -> Outcome
    requires { IsTrue (takes aggregation _kind) }
    ensures value { (names : Naming) → read_outcome names result ≡ aggregated aggregation _kind [] }
    ensures kind { IsTrue (is_outcome_of (gives_kind aggregation _kind) result) }
{
    match aggregation {
        Agg::Count | Agg::Sum => Outcome::Value(Value::Int(0)),
        Agg::Min | Agg::Max | Agg::Avg => Outcome::Missing,
        Agg::Forall => Outcome::Value(Value::Bool(true)),
        Agg::Exists => Outcome::Value(Value::Bool(false)),
    }
}

/// The answer of a window onto no values, `offset` after the start.
pub fn without_values(w: &WindowPanes, offset: u64) -> Outcome
    requires { IsTrue (takes w.now.aggregation w.now.kind) }
    ensures value { (names : Naming) → read_outcome names result ≡ (if w.now.exact && nat_lt offset (w.now.count * w.now.pane) then Missing else aggregated w.now.aggregation w.now.kind []) }
    ensures kind { IsTrue (is_outcome_of (gives_kind w.now.aggregation w.now.kind) result) }
{
    if is_early(w, offset) {
        Outcome::Missing
    } else {
        fold_of_none(w.aggregation, w.kind)
    }
}
