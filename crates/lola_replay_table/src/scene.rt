//! What a clause is tried in: the plan, the moment of the step, and what is known of it.

ghost use Rattle.std.specs.Prelude.{◌≡◌, ◌≤◌, ◌<◌, ◌^◌, ◌-◌, length};
ghost use Rattle.lola_value.specs.Times.{latest};
ghost use Rattle.lola_model.specs.Activity.{is_active, is_active_at, is_active_for, is_deadline as is_deadline_of, present as present_of, satisfies_some};
ghost use Rattle.lola_model.specs.declared.pacing.Pacing.TheVariants.{Periodic};
ghost use Rattle.lola_replay_table.specs.Moments.{HasSet, the_fields, the_step};

use crate::table::KnownStream;
use lola_model::pacing::{InputSet, Pacing};
use lola_model::plan::Plan;
use lola_value::rate::Rate;
use lola_value::text::Field;
use std::alloc::Global;

/// The moment of a step. Times are in nanoseconds.
#[derive(Clone, Copy)]
pub struct ReplayedStep<'a> {
    /// The start of the run.
    pub start: u64,
    /// The time of the step.
    pub time: u64,
    /// The fields of its row; none at deadlines.
    pub fields: Option<&'a [Field]>,
    /// The inputs that the row has, input i as bit i.
    pub present: u64,
}

/// What a clause is tried in.
#[derive(Clone, Copy)]
pub struct Scene<'a> {
    pub alloc: Global,
    pub plan: &'a Plan,
    pub moment: ReplayedStep<'a>,
    pub known: &'a [KnownStream],
}

/// The inputs that a row has, input i as bit i.
pub fn present(fields: &[Field]) -> u64
    requires { length fields.now ≤ 64 }
    ensures value { result ≡ present_of fields.now }
    ensures small { result < 2 ^ length fields.now }
{
    match fields.split_first() {
        Some((first, others)) => {
            let bit = match first {
                Field::Absent => 0,
                _ => 1,
            };
            bit + 2 * present(others)
        }
        None => 0,
    }
}

// Whether some of these sets has present inputs alone.
fn satisfies_some(sets: &[InputSet], present: u64) -> bool
    ensures { result ≡ satisfies_some present sets.now }
{
    for set in sets {
        if set.0 & present == set.0 {
            return true;
        }
    }
    false
}

// Whether a moment, so long after where the rate counts from, is one of its deadlines.
fn is_deadline(rate: &Rate, after: u64) -> bool
    requires { after ≤ latest }
    ensures { result ≡ is_deadline_of rate.now after }
{
    if after == 0 {
        return false;
    }
    match rate.next_after(after - 1) {
        Some((_, deadline)) => deadline == after,
        None => false,
    }
}

// Whether a rate that counts from a moment is active: at its deadlines, and in no step of a row.
fn is_at_deadline(moment: &ReplayedStep, counted: u64, rate: &Rate) -> bool
    requires { moment.now.time ≤ latest }
    ensures { result ≡ is_active_at counted moment.now.time (the_fields moment.now) (Periodic rate.now) }
{
    match moment.fields {
        Some(_) => false,
        None => is_deadline(rate, moment.time.saturating_sub(counted)),
    }
}

/// Whether a pacing is active for an instance that was born at a time; a local rate counts from there.
pub fn is_active_for(moment: &ReplayedStep, born: u64, pacing: &Option<Pacing>) -> bool
    requires in_time { moment.now.time ≤ latest }
    requires set { HasSet moment.now }
    ensures { result ≡ is_active_for moment.now.start born (the_step moment.now) pacing.now }
{
    match pacing {
        Some(Pacing::Event(sets)) => match moment.fields {
            Some(_) => satisfies_some(sets.as_slice(), moment.present),
            None => false,
        },
        Some(Pacing::Periodic(rate)) => is_at_deadline(moment, moment.start, rate),
        Some(Pacing::Local(rate)) => is_at_deadline(moment, born, rate),
        None => false,
    }
}

/// Whether a pacing is active for all instances alike; a local rate never is.
pub fn is_active(moment: &ReplayedStep, pacing: &Option<Pacing>) -> bool
    requires in_time { moment.now.time ≤ latest }
    requires set { HasSet moment.now }
    ensures { result ≡ is_active moment.now.start (the_step moment.now) pacing.now }
{
    match pacing {
        Some(Pacing::Event(sets)) => match moment.fields {
            Some(_) => satisfies_some(sets.as_slice(), moment.present),
            None => false,
        },
        Some(Pacing::Periodic(rate)) => is_at_deadline(moment, moment.start, rate),
        Some(Pacing::Local(_)) => false,
        None => false,
    }
}
