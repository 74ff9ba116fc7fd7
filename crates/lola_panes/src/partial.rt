//! The partial result of a pane: what a saved window says of the values of one pane.

ghost use Rattle.std.specs.Prelude.{◌≡◌, ◌<◌, ◌^◌};
ghost use Rattle.lola_panes.specs.Parts.{counted, totalled, extreme_in, part};

use lola_model::spec::Agg;

/// What the values of one pane come to: `Number` is how many they are for `Count` and their sum for `Sum`, `Extreme` the
/// least or the greatest of them for `Min` and `Max`, or `None` of none, `Mean` what `Avg` divides, and `Truth` whether
/// all are true for `Forall`, or whether some is for `Exists`.
#[derive(Clone, Copy)]
pub enum Partial {
    Number(i128),
    Extreme(Option<i128>),
    Mean { total: i128, count: u64 },
    Truth(bool),
}

/// How many values a partial result counts: none, where the aggregation does not ask for it.
pub fn counted(aggregation: Agg, partial: Partial) -> u64
    requires { counted aggregation partial < 2 ^ 64 }
    ensures { result ≡ counted aggregation partial }
{
    match aggregation {
        Agg::Count => match partial {
            Partial::Number(n) => n.unsigned_abs() as u64,
            _ => 0,
        },
        Agg::Avg => match partial {
            Partial::Mean { total: _, count } => count,
            _ => 0,
        },
        _ => 0,
    }
}

/// What a partial result adds to a total. Of truth values a pane that is not all true lowers it, and one with a true value
/// raises it.
pub fn totalled(aggregation: Agg, partial: Partial) -> i128
    ensures { result ≡ totalled aggregation partial }
{
    match aggregation {
        Agg::Sum => match partial {
            Partial::Number(n) => n,
            _ => 0,
        },
        Agg::Avg => match partial {
            Partial::Mean { total, count: _ } => total,
            _ => 0,
        },
        Agg::Forall => match partial {
            Partial::Truth(b) => if b { 0 } else { -1 },
            _ => 0,
        },
        Agg::Exists => match partial {
            Partial::Truth(b) => if b { 1 } else { 0 },
            _ => 0,
        },
        _ => 0,
    }
}

/// The best of the values of a pane that is kept: `None` of one that is not, since it had no value. Where the answer is
/// none of the values each pane is kept.
pub fn extreme_in(partial: Partial) -> Option<i128>
    ensures { result ≡ extreme_in partial }
{
    match partial {
        Partial::Extreme(best) => best,
        _ => Some(0),
    }
}

/// The partial result, from how many values there are, their total, and the best of them.
pub fn part(aggregation: Agg, count: u64, total: i128, best: Option<i128>) -> Partial
    ensures { result ≡ part aggregation count total best }
{
    match aggregation {
        Agg::Count => Partial::Number(count as i128),
        Agg::Sum => Partial::Number(total),
        Agg::Avg => Partial::Mean { total, count },
        Agg::Forall => Partial::Truth(total == count as i128),
        Agg::Exists => Partial::Truth(total > 0),
        Agg::Min | Agg::Max => Partial::Extreme(best),
    }
}
