//! The partial result of a pane as a word of a line, and what may be one.

ghost use Rattle.std.specs.Prelude.{◌≡◌, ◌≤◌, ◌^◌, ◌*ℤ◌, ◌&&◌, ℕ, List, MatchOption, int_le, pos};
ghost use Rattle.lola_value.specs.Arithmetic.{greatest, least};
ghost use Rattle.lola_model.specs.declared.spec.Agg.TheVariants as agg;
ghost use Rattle.lola_panes.specs.declared.partial.Partial.{Partial};
ghost use Rattle.lola_save_text.specs.Fitting.{counted, is_partial, total_size};
ghost use Rattle.lola_save_read.specs.Parts.{IsNextPartial, ReadsPartial, fits};

use crate::cuts::{cut_at_slash, next_word};
use crate::value::{is_within, truth_word};
use crate::wide::integer_word;
use crate::words::{is_dash, number_word};
use lola_model::spec::Agg;
use lola_panes::partial::Partial;
use lola_value::arithmetic::range;
use lola_value::value::Kind;

// What a number may be a partial result of.
fn number_partial(word: &[u8]) -> Option<Partial>
    ensures { ReadsPartial agg.Count word.now result }
{
    match integer_word(word) {
        None => None,
        Some(z) => Some(Partial::Number(z)),
    }
}

// A least or greatest value, or a dash where there is none.
fn extreme_partial(word: &[u8]) -> Option<Partial>
    ensures { ReadsPartial agg.Min word.now result }
{
    if is_dash(word) {
        return Some(Partial::Extreme(None));
    }
    match integer_word(word) {
        None => None,
        Some(z) => Some(Partial::Extreme(Some(z))),
    }
}

// A sum and a count, with a slash between them.
fn mean_partial(word: &[u8]) -> Option<Partial>
    ensures { ReadsPartial agg.Avg word.now result }
{
    match cut_at_slash(word) {
        None => None,
        Some((front, back)) => match integer_word(front) {
            None => None,
            Some(total) => match number_word(back) {
                None => None,
                Some(count) => Some(Partial::Mean { total, count }),
            },
        },
    }
}

// A truth value.
fn truth_partial(word: &[u8]) -> Option<Partial>
    ensures { ReadsPartial agg.Forall word.now result }
{
    match truth_word(word) {
        None => None,
        Some(b) => Some(Partial::Truth(b)),
    }
}

// The partial result that is spelled so, of the form of an aggregation.
fn partial_word(how: Agg, word: &[u8]) -> Option<Partial>
    ensures { ReadsPartial how word.now result }
{
    match how {
        Agg::Count | Agg::Sum => number_partial(word),
        Agg::Min | Agg::Max => extreme_partial(word),
        Agg::Avg => mean_partial(word),
        Agg::Forall | Agg::Exists => truth_partial(word),
    }
}

/// How many values a partial result counts.
pub(crate) fn counted(how: Agg, partial: &Partial) -> u128
    ensures { result ≡ counted how partial.now }
{
    match *partial {
        Partial::Number(z) => {
            if matches!(how, Agg::Count) {
                z.unsigned_abs()
            } else {
                0
            }
        }
        Partial::Mean { total: _, count } => {
            if matches!(how, Agg::Avg) {
                count as u128
            } else {
                0
            }
        }
        _ => 0,
    }
}

/// The size of a partial result's total.
pub(crate) fn total_size(how: Agg, partial: &Partial) -> u128
    ensures { result ≡ total_size how partial.now }
{
    match *partial {
        Partial::Number(z) => {
            if matches!(how, Agg::Sum) {
                z.unsigned_abs()
            } else {
                0
            }
        }
        Partial::Mean { total, count: _ } => {
            if matches!(how, Agg::Avg) {
                total.unsigned_abs()
            } else {
                0
            }
        }
        _ => 0,
    }
}

// Whether a number lies between two.
fn is_between(low: &i128, z: &i128, high: &i128) -> bool
    ensures { result ≡ (int_le low.now z.now && int_le z.now high.now) }
{
    *low <= *z && *z <= *high
}

// The least total of so many values of a kind.
fn least_total(kind: Kind, count: u64) -> i128
    requires { count ≤ 2 ^ 62 }
    ensures { result ≡ pos count *ℤ least kind }
{
    let (low, _high) = range(kind);
    count as i128 * low
}

// The greatest.
fn greatest_total(kind: Kind, count: u64) -> i128
    requires { count ≤ 2 ^ 62 }
    ensures { result ≡ pos count *ℤ greatest kind }
{
    let (_low, high) = range(kind);
    count as i128 * high
}

// Whether a mean of so many values of a kind may have this total.
fn is_mean(kind: Kind, total: &i128, count: u64) -> bool
    requires { count ≤ 2 ^ 62 }
    ensures { result ≡ (int_le (pos count *ℤ least kind) total.now && int_le total.now (pos count *ℤ greatest kind)) }
{
    is_between(
        &least_total(kind, count),
        total,
        &greatest_total(kind, count),
    )
}

// Whether this is a partial result of an aggregation over values of a kind.
fn is_partial(how: Agg, kind: Kind, partial: &Partial) -> bool
    requires { counted how partial.now ≤ 2 ^ 62 }
    ensures { result ≡ is_partial how kind partial.now }
{
    match how {
        Agg::Count => matches!(*partial, Partial::Number(z) if z >= 0),
        Agg::Sum => matches!(*partial, Partial::Number(_)),
        Agg::Min | Agg::Max => match *partial {
            Partial::Extreme(None) => true,
            Partial::Extreme(Some(z)) => is_within(kind, &z),
            _ => false,
        },
        Agg::Avg => match *partial {
            Partial::Mean { total, count } => is_mean(kind, &total, count),
            _ => false,
        },
        Agg::Forall | Agg::Exists => matches!(*partial, Partial::Truth(_)),
    }
}

// Whether this is a partial result that counts at most so many values, and whose total is at most so large.
fn fits(how: Agg, kind: Kind, counts: u128, totals: u128, partial: &Partial) -> bool
    requires { counts ≤ 2 ^ 62 }
    ensures { result ≡ fits how kind counts totals partial.now }
{
    counted(how, partial) <= counts
        && total_size(how, partial) <= totals
        && is_partial(how, kind, partial)
}

/// The partial result behind the space with which bytes begin, where it fits, and what stands behind it.
pub(crate) fn next_partial(
    how: Agg,
    kind: Kind,
    counts: u128,
    totals: u128,
    bytes: &[u8],
) -> Option<(Partial, &[u8])>
    requires few { counts ≤ 2 ^ 62 }
    requires small { totals ≤ 2 ^ 126 }
    ensures { MatchOption result ((q : Partial) (rest : List ℕ) → IsNextPartial how kind counts totals bytes.now q rest → ⊥) (λ x. IsNextPartial how kind counts totals bytes.now x.0 x.1.now) }
{
    match next_word(bytes) {
        None => None,
        Some((word, rest)) => match partial_word(how, word) {
            None => None,
            Some(partial) => {
                if fits(how, kind, counts, totals, &partial) {
                    Some((partial, rest))
                } else {
                    None
                }
            }
        },
    }
}
