//! Which deadline comes next, by what is known between steps.

ghost use Rattle.std.specs.Prelude.{◌≡◌, ◌≤◌, ◌+◌, [], ◌∷◌, IfSome, Some, None, length, slice_get};
ghost use Rattle.lola_value.specs.Times.{up_to_latest};
ghost use Rattle.lola_model.specs.NextStep.{HasRates, earlier, is_local, local_rate_of, local_rates};
ghost use Rattle.lola_model.specs.Steps.{rate_of};
ghost use Rattle.lola_replay_step.specs.Dues.{clauses_due, due_of_known, due_of_lives, due_of_stream, known_due, timely_due};

use lola_model::pacing::{ClausePacings, Pacing};
use lola_model::plan::Plan;
use lola_replay_table::table::{KnownLife, KnownStream};
use lola_value::rate::Rate;
use lola_value::times::LATEST;

// The earlier of two moments, where they are there.
fn earlier(first: Option<u64>, second: Option<u64>) -> Option<u64>
    ensures { result ≡ earlier first second }
{
    match first {
        Some(a) => match second {
            Some(b) => Some(if b < a { b } else { a }),
            None => Some(a),
        },
        None => second,
    }
}

// A moment, if it is a time.
fn up_to_latest(time: u64) -> Option<u64>
    ensures { result ≡ up_to_latest time }
{
    if time <= LATEST { Some(time) } else { None }
}

// A moment so long after another, if it is a time.
fn after(counted: u64, long: u64) -> Option<u64>
    ensures { result ≡ up_to_latest (counted + long) }
{
    match counted.checked_add(long) {
        Some(time) => up_to_latest(time),
        None => None,
    }
}

// The first deadline of a rate that counts from a moment, from another one on, if it is a time.
fn of_rate(rate: &Rate, counted: u64, from: u64) -> Option<u64>
    ensures { result ≡ timely_due counted (rate.now ∷ []) from }
{
    match rate.next_after(from.saturating_sub(counted).saturating_sub(1)) {
        Some((_, deadline)) => after(counted, deadline),
        None => None,
    }
}

// Of a clause that counts from the start.
fn of_global(pacing: &Option<Pacing>, start: u64, from: u64) -> Option<u64>
    ensures { result ≡ timely_due start (rate_of pacing.now) from }
{
    match pacing {
        Some(Pacing::Periodic(rate)) => of_rate(rate, start, from),
        Some(Pacing::Event(_)) => None,
        Some(Pacing::Local(_)) => None,
        None => None,
    }
}

// Of a clause that counts from the birth of an instance.
fn of_local(pacing: &Option<Pacing>, born: u64, from: u64) -> Option<u64>
    ensures { result ≡ timely_due born (local_rate_of pacing.now) from }
{
    match pacing {
        Some(Pacing::Local(rate)) => of_rate(rate, born, from),
        Some(Pacing::Event(_)) => None,
        Some(Pacing::Periodic(_)) => None,
        None => None,
    }
}

// Of all clauses that count from the start.
fn of_clauses(clauses: &[ClausePacings], start: u64, from: u64) -> Option<u64>
    ensures { result ≡ clauses_due start from clauses.now }
{
    match clauses {
        [] => None,
        [first, others @ ..] => earlier(
            of_global(&first.spawn, start, from),
            earlier(
                of_global(&first.eval, start, from),
                earlier(
                    of_global(&first.close, start, from),
                    of_clauses(others, start, from),
                ),
            ),
        ),
    }
}

// Of an instance that was born at a time.
#[tactic(auto, using(crate::proofs::DueLemmas::due_append))]
fn of_life(clauses: &ClausePacings, born: u64, from: u64) -> Option<u64>
    ensures { result ≡ timely_due born (local_rates (Some clauses.now)) from }
{
    earlier(
        of_local(&clauses.eval, born, from),
        of_local(&clauses.close, born, from),
    )
}

// Of instances of one stream.
fn of_lives(clauses: &ClausePacings, lives: &[KnownLife], from: u64) -> Option<u64>
    ensures { result ≡ due_of_lives (local_rates (Some clauses.now)) from None lives.now }
{
    let mut best = None;
    for life in lives {
        best = earlier(best, of_life(clauses, life.born, from));
    }
    best
}

// Whether a pacing counts from births.
fn is_local(pacing: &Option<Pacing>) -> bool
    ensures { result ≡ is_local pacing.now }
{
    match pacing {
        Some(Pacing::Local(_)) => true,
        Some(Pacing::Event(_)) => false,
        Some(Pacing::Periodic(_)) => false,
        None => false,
    }
}

// Of a stream; its instances are looked at only where one of its clauses counts from their births.
fn of_stream(plan: &Plan, number: usize, lives: &[KnownLife], from: u64) -> Option<u64>
    ensures { result ≡ due_of_stream (slice_get plan.now.pacings number) from lives.now }
{
    match plan.pacings.as_slice().get(number) {
        Some(clauses) => {
            if is_local(&clauses.eval) || is_local(&clauses.close) {
                of_lives(clauses, lives, from)
            } else {
                None
            }
        }
        None => None,
    }
}

// Of streams, from this number on.
fn of_streams(plan: &Plan, number: usize, known: &[KnownStream], from: u64) -> Option<u64>
    requires { number + length known.now ≤ 1024 }
    ensures { result ≡ due_of_known plan.now from number known.now }
{
    match known {
        [] => None,
        [stream, others @ ..] => earlier(
            of_stream(plan, number, stream.lives.as_slice(), from),
            of_streams(plan, number + 1, others, from),
        ),
    }
}

/// The first deadline from a moment on: of the rates that count from the start of the run, or of an instance that lives. Times are in
/// nanoseconds; there is none where it is above the latest time.
pub fn due(plan: &Plan, start: u64, known: &[KnownStream], from: u64) -> Option<u64>
    requires few { length known.now ≤ 1024 }
    requires rates { HasRates plan.now.pacings }
    ensures value { result ≡ known_due plan.now from start known.now }
    ensures late { IfSome result (λ time. from ≤ time) }
{
    earlier(
        of_clauses(plan.pacings.as_slice(), start, from),
        of_streams(plan, 0, known, from),
    )
}
