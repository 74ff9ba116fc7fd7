//! When clauses are active.

ghost use Rattle.std.specs.Prelude.{◌≡◌, ◌≤◌, ◌<◌, ◌^◌, ◌-◌, IfSome, IsTrue, None, Some, length, slice_get, true};
ghost use Rattle.lola_value.specs.Times.{latest};
ghost use Rattle.lola_model.specs.Activity.{is_deadline as is_deadline_of, satisfies_some as satisfies_some_of};
ghost use Rattle.lola_model.specs.NextStep.{is_local};
ghost use Rattle.lola_model.specs.Store.{instances_seen, spawns_in};
ghost use Rattle.lola_step.specs.Rates.{IsKnownAt};
ghost use Rattle.lola_step.specs.declared.moment.Moment.{Moment};
ghost use Rattle.lola_step.specs.Moments.{active_for_in, active_in, active_since, born_seen, may_be_active_in, present_in};

use lola_model::pacing::{InputSet, Pacing};
use lola_model::store::StreamStore;
use lola_value::rate::Rate;
use lola_value::value::Outcome;

/// The moment of a step: where time counts from and its time, in nanoseconds, and at a row's step the set of the inputs that
/// have a value, input `i` as bit `i`. At a deadline's step there is no such set.
#[derive(Clone, Copy)]
pub struct Moment {
    pub start: u64,
    pub time: u64,
    pub present: Option<u64>,
}

/// The set of the inputs that have a value.
pub(crate) fn present_inputs(inputs: &[Outcome]) -> u64
    requires { length inputs.now ≤ 64 }
    ensures value { result ≡ present_in inputs.now }
    ensures small { result < 2 ^ length inputs.now }
{
    match inputs.split_first() {
        Some((first, others)) => {
            let bit = match first {
                Outcome::Value(_) => 1,
                _ => 0,
            };
            bit + 2 * present_inputs(others)
        }
        None => 0,
    }
}

/// Whether some of these sets has present inputs alone.
fn satisfies_some(sets: &[InputSet], present: u64) -> bool
    ensures { result ≡ satisfies_some_of present sets.now }
{
    for set in sets {
        if set.0 & present == set.0 {
            return true;
        }
    }
    false
}

/// Whether a moment, so long after where the rate counts from, is one of its deadlines.
fn is_deadline(rate: &Rate, after: u64) -> bool
    requires { after ≤ latest }
    ensures { result ≡ is_deadline_of rate.now after }
{
    if after == 0 {
        return false;
    }
    match rate.next_after(after - 1) {
        Some((_, deadline)) => deadline == after,
        None => false,
    }
}

/// The rate that was looked at last at a moment, and whether the moment is one of its deadlines: the streams of a step mostly have one
/// rate, and then it is reckoned once.
#[derive(Clone, Copy)]
pub(crate) struct LastRate {
    rate: Option<Rate>,
    is_due: bool,
}

impl LastRate {
    // None was looked at.
    pub(crate) fn none() -> LastRate
        ensures { (m : Moment) → IsKnownAt m result }
    {
        LastRate {
            rate: None,
            is_due: false,
        }
    }
}

// Whether two rates are the same.
fn is_same(rate: &Rate, other: &Rate) -> bool
    ensures { result ≡ true → rate.now ≡ other.now }
{
    rate.num() == other.num() && rate.den() == other.den()
}

// Whether a moment is a deadline of a rate, if that was the one looked at last.
fn known(last: LastRate, rate: &Rate) -> Option<bool>
    ensures { (m : Moment) → IsKnownAt m last → IfSome result (λ b. b ≡ is_deadline_of rate.now (m.time - m.start)) }
{
    match &last.rate {
        Some(asked) => {
            if is_same(asked, rate) {
                Some(last.is_due)
            } else {
                None
            }
        }
        None => None,
    }
}

// Whether a moment is a deadline of a rate.
fn is_due(moment: &Moment, rate: &Rate, last: &mut LastRate) -> bool
    requires in_time { moment.now.time ≤ latest }
    requires order { moment.now.start ≤ moment.now.time }
    requires known { IsKnownAt moment.now last.old }
    ensures known { IsKnownAt moment.now last.new }
    ensures value { result ≡ is_deadline_of rate.now (moment.now.time - moment.now.start) }
{
    if let Some(due) = known(*last, rate) {
        return due;
    }
    let due = is_deadline(rate, moment.time - moment.start);
    *last = LastRate {
        rate: Some(*rate),
        is_due: due,
    };
    due
}

/// Whether a pacing is active for all instances alike: one by inputs at rows that have all of one of its sets, a rate at its deadlines.
/// A local rate, which counts from the birth of each instance, never is.
pub(crate) fn is_active(moment: &Moment, pacing: &Option<Pacing>) -> bool
    requires in_time { moment.now.time ≤ latest }
    requires order { moment.now.start ≤ moment.now.time }
    ensures { result ≡ active_in moment.now pacing.now }
{
    match pacing {
        None => false,
        Some(Pacing::Event(sets)) => match moment.present {
            Some(present) => satisfies_some(sets.as_slice(), present),
            None => false,
        },
        Some(Pacing::Periodic(rate)) => match moment.present {
            Some(_) => false,
            None => is_deadline(rate, moment.time - moment.start),
        },
        Some(Pacing::Local(_)) => false,
    }
}

/// Whether a pacing may be active for some instance: a local rate may at each moment of deadlines.
pub(crate) fn may_be_active(moment: &Moment, pacing: &Option<Pacing>) -> bool
    requires in_time { moment.now.time ≤ latest }
    requires order { moment.now.start ≤ moment.now.time }
    ensures { result ≡ may_be_active_in moment.now pacing.now }
{
    match pacing {
        Some(Pacing::Local(_)) => match moment.present {
            None => true,
            _ => false,
        },
        _ => is_active(moment, pacing),
    }
}

/// Whether a moment is a deadline of a local rate for an instance that was born at a time.
#[inline(never)]
fn is_deadline_since(moment: &Moment, born: u64, rate: &Rate) -> bool
    requires in_time { moment.now.time ≤ latest }
    ensures { result ≡ active_since moment.now born rate.now }
{
    match moment.present {
        None => is_deadline(rate, moment.time.saturating_sub(born)),
        _ => false,
    }
}

/// Whether a pacing that may be active is so for an instance. The store is asked for its birth only where the rate is local.
#[inline(always)]
pub(crate) fn is_active_for<S: StreamStore>(
    moment: &Moment,
    pacing: &Option<Pacing>,
    store: &S,
    stream: u32,
    index: u32,
) -> bool
    requires in_time { moment.now.time ≤ latest }
    requires may { may_be_active_in moment.now pacing.now ≡ true }
    requires spawns { is_local pacing.now ≡ true → IsTrue (spawns_in (slice_get (S.seen store.now).layout.streams stream)) }
    requires lives { index < length (instances_seen (S.seen store.now) stream) }
    ensures { result ≡ active_for_in moment.now (born_seen (S.seen store.now) stream index) pacing.now }
{
    match pacing {
        Some(Pacing::Local(rate)) => is_deadline_since(moment, store.born(stream, index), rate),
        _ => true,
    }
}

/// Whether a pacing may be active for some instance, where the rate that was looked at last is known.
pub(crate) fn may_be_active_now(
    moment: &Moment,
    pacing: &Option<Pacing>,
    last: &mut LastRate,
) -> bool
    requires in_time { moment.now.time ≤ latest }
    requires order { moment.now.start ≤ moment.now.time }
    requires known { IsKnownAt moment.now last.old }
    ensures known { IsKnownAt moment.now last.new }
    ensures value { result ≡ may_be_active_in moment.now pacing.now }
{
    match pacing {
        Some(Pacing::Periodic(rate)) => match moment.present {
            None => is_due(moment, rate, last),
            _ => false,
        },
        _ => may_be_active(moment, pacing),
    }
}
