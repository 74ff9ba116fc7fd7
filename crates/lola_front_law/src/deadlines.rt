//! The laws, about definitions alone.

ghost use Rattle.lola_model.specs.Acceptance.{IsAccepted};
ghost use Rattle.lola_front_law.specs.Formula.{AreDeadlines};
ghost use Rattle.lola_front_law.specs.LocalDues.{NextIsFirst, PlacesAreDue};
ghost use Rattle.lola_front_law.specs.LocalRates.{HasLocalRatesOf};

use lola_model::plan::Plan;

/// A clause with a rate is active exactly at the deadlines of its rate, the k-th of which is `k * den * 10^9 / num` nanoseconds, cut
/// to whole ones, after the moment from which the rate counts: the start of the run, or the instance's birth. It is never active in
/// the step of a row.
pub fn active_at_deadlines()
    ensures { AreDeadlines }
{}

/// The local deadline that a store tells, from any moment on, is the first deadline of all instances that live, by all local rates of
/// their streams, that is at this moment or later and no later than the latest time; and it tells none exactly where there is none.
pub fn next_is_first()
    ensures { NextIsFirst }
{}

/// The places that a store lists as due at a moment are those of the instances that live and have a local deadline at it: all of them,
/// no others, each once, in ascending order.
pub fn places_are_due()
    ensures { PlacesAreDue }
{}

/// What a store that is made for an accepted plan takes for the local rates of a stream are those of the stream's local clauses, and
/// each is above 0. So what is said of stores here holds of each store that is made for an accepted plan.
pub fn local_rates_are_theirs(_plan: &Plan)
    requires { IsAccepted _plan.now }
    ensures { HasLocalRatesOf _plan.now }
{}
