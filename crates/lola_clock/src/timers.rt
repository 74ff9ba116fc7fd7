//! Timers: each rate with the moment of its first deadline that is not passed.
ghost use Rattle.std.specs.Prelude.{◌≡◌, ℕ, ◌+◌, ◌*◌, ◌%◌, ◌<◌, ◌≤◌, if◌then◌else◌, nat_lt, map, min, IfOk};
ghost use Rattle.lola_value.specs.Rate.{deadline, period_over};
ghost use Rattle.lola_value.specs.Times.{latest};
ghost use Rattle.lola_model.specs.StepOrder.{IsPositiveRate, AreRates};
ghost use Rattle.lola_clock.specs.Timers.{AreUsable, HasPeriod, IsMoment, IsSetOne, IsUsable, StandsAt, due_of, earliest, new_timer, rest_of, set_timer, timer_rates, too_late};

use lola_value::rate::Rate;
use lola_value::text::Memory;
use lola_value::times::SECOND;
use std::alloc::Global;

/// The moment after the latest time, which stands for all later ones.
pub(crate) const TOO_LATE: u64 = 4_000_000_000_000_000_001;

/// A rate, the moment of its first deadline that is not passed, and what it takes to go to the one behind that: what cutting the deadline
/// to whole nanoseconds left, and a period, in whole nanoseconds and in parts of one. As many parts as the rate's numerator are one.
#[derive(Clone, Copy)]
pub(crate) struct Timer {
    pub(crate) rate: Rate,
    pub(crate) due: u64,
    pub(crate) rest: u64,
    pub(crate) whole: u64,
    pub(crate) part: u64,
}

// A deadline as a moment, and what cutting it to whole nanoseconds left.
#[derive(Clone, Copy)]
struct Moment {
    due: u64,
    rest: u64,
}

// A timer of a rate, which is still to be set.
fn timer_of(rate: &Rate) -> Timer
    ensures { result ≡ new_timer rate.now }
{
    let over = rate.den() as u128 * SECOND as u128;
    let num = rate.num() as u128;
    Timer {
        rate: *rate,
        due: 0,
        rest: 0,
        whole: (over / num) as u64,
        part: (over % num) as u64,
    }
}

/// A timer for each rate, which is still to be set.
pub(crate) fn new_timers(alloc: Global, rates: &[Rate]) -> Result<Vec<Timer>, Memory>
    ensures { IfOk result (λ timers. timers.items ≡ map new_timer rates.now) }
{
    let timers = rates.iter().map(|rate| timer_of(rate)).collect(alloc)?;
    Ok(timers)
}

// A moment, where it is no later than all times.
fn placed(due: u64, rest: u64) -> Moment
    ensures due { result.due ≡ min due too_late }
    ensures rest { result.rest ≡ (if nat_lt due too_late then rest else 0) }
{
    if due < TOO_LATE {
        Moment { due, rest }
    } else {
        Moment {
            due: TOO_LATE,
            rest: 0,
        }
    }
}

// What cutting a deadline to whole nanoseconds left.
fn rest_after(rate: &Rate, number: u64, offset: u64) -> u64
    requires offset { offset ≡ deadline rate.now number }
    requires in_time { offset ≤ latest }
    ensures { result ≡ (number * period_over rate.now) % rate.now.num }
{
    let over = rate.den() as u128 * SECOND as u128;
    let num = rate.num() as u128;
    (number as u128 * over - offset as u128 * num) as u64
}

// The moment of a rate's first deadline above what is passed.
fn moment_after(rate: &Rate, start: u64, passed: u64) -> Moment
    requires order { start ≤ passed }
    requires in_time { passed ≤ latest }
    ensures due { result.due ≡ due_of start passed rate.now }
    ensures rest { result.rest ≡ rest_of start passed rate.now }
    ensures rate { IsPositiveRate rate.now }
{
    match rate.next_after(passed - start) {
        Some((number, offset)) => placed(start + offset, rest_after(rate, number, offset)),
        None => Moment {
            due: TOO_LATE,
            rest: 0,
        },
    }
}

// The same, beside a timer that is set for that moment, if there is one: where the rates are equal, so are the moments.
fn moment_beside(rate: &Rate, set: &Option<Timer>, start: u64, to: u64) -> Moment
    requires order { start ≤ to }
    requires in_time { to ≤ latest }
    requires set { IsSetOne start to set.now }
    ensures due { result.due ≡ due_of start to rate.now }
    ensures rest { result.rest ≡ rest_of start to rate.now }
    ensures rate { IsPositiveRate rate.now }
{
    if let Some(other) = set {
        if other.rate == *rate {
            return Moment {
                due: other.due,
                rest: other.rest,
            };
        }
    }
    moment_after(rate, start, to)
}

// The deadline behind that at which a timer stands, by addition alone.
fn one_later(timer: &Timer, start: u64) -> Moment
    requires period { HasPeriod timer.now }
    requires stands { StandsAt start timer.now }
    requires in_time { timer.now.due ≤ latest }
    ensures later { (number : ℕ) → IsMoment start timer.now.rate number timer.now.due timer.now.rest → IsMoment start timer.now.rate (number + 1) result.due result.rest }
    ensures rate { IsPositiveRate timer.now.rate }
{
    let num = timer.rate.num();
    let due = timer.due + timer.whole;
    let rest = timer.rest + timer.part;
    if rest < num {
        Moment { due, rest }
    } else {
        Moment {
            due: due + 1,
            rest: rest - num,
        }
    }
}

// Whether a deadline is above a moment.
fn is_above(deadline: Moment, to: u64) -> bool
    ensures { result ≡ nat_lt to deadline.due }
{
    to < deadline.due
}

// The moment of the first deadline above another moment for a timer that does not stand above it. Where it is the next one of a timer that
// stands at a deadline, nothing is divided.
fn moment_for(timer: &Timer, set: &Option<Timer>, known: bool, start: u64, to: u64) -> Moment
    requires order { start ≤ to }
    requires in_time { to ≤ latest }
    requires usable { IsUsable known start to timer.now }
    requires due { timer.now.due ≤ to }
    requires set { IsSetOne start to set.now }
    ensures due { result.due ≡ due_of start to timer.now.rate }
    ensures rest { result.rest ≡ rest_of start to timer.now.rate }
    ensures rate { IsPositiveRate timer.now.rate }
{
    if known {
        let next = one_later(timer, start);
        if is_above(next, to) {
            return placed(next.due, next.rest);
        }
    }
    moment_beside(&timer.rate, set, start, to)
}

// Sets a timer to its first deadline above a moment, beside one that is set, if there is one. A timer that stands
// above the moment stays; the others stand at deadlines, where that is known.
fn set_one(timer: &mut Timer, set: &Option<Timer>, known: bool, start: u64, to: u64)
    requires order { start ≤ to }
    requires in_time { to ≤ latest }
    requires usable { IsUsable known start to timer.old }
    requires set { IsSetOne start to set.now }
    ensures set { timer.new ≡ set_timer start to timer.old }
    ensures rate { IsPositiveRate timer.old.rate }
{
    if timer.due <= to {
        let moment = moment_for(timer, set, known, start, to);
        timer.due = moment.due;
        timer.rest = moment.rest;
    }
}

/// Sets each timer to its first deadline above a moment, and answers the least moment at which one then stands. Those
/// that stand above the moment stay; the others stand at deadlines, where that is known.
pub(crate) fn set_timers(timers: &mut Vec<Timer>, known: bool, start: u64, to: u64) -> u64
    requires order { start ≤ to }
    requires in_time { to ≤ latest }
    requires usable { AreUsable known start to timers.old.items }
    ensures set { timers.new.items ≡ map (set_timer start to) timers.old.items }
    ensures rates { AreRates (timer_rates timers.old.items) }
    ensures least { result ≡ earliest timers.new.items }
{
    set_all(timers.as_mut_slice(), known, start, to)
}

// The same over a slice.
fn set_all(timers: &mut [Timer], known: bool, start: u64, to: u64) -> u64
    requires order { start ≤ to }
    requires in_time { to ≤ latest }
    requires usable { AreUsable known start to timers.old }
    ensures set { timers.new ≡ map (set_timer start to) timers.old }
    ensures rates { AreRates (timer_rates timers.old) }
    ensures least { result ≡ earliest timers.new }
{
    let mut least = TOO_LATE;
    let mut set = None;
    for timer in timers.iter_mut() {
        set_one(timer, &set, known, start, to);
        set = Some(*timer);
        least = least.min(timer.due);
    }
    least
}
