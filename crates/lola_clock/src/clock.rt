//! A clock for the deadlines of rates.
ghost use Rattle.std.specs.Prelude.{◌≡◌, ◌≤◌, None, Some, max, IfOk, IsSome};
ghost use Rattle.lola_value.specs.Times.{latest};
ghost use Rattle.lola_clock.specs.Clock.{IsClock, IsNextDue, first_to_come};

use crate::timers::{TOO_LATE, Timer, new_timers, set_timers};
use lola_value::rate::Rate;
use lola_value::text::Memory;
use lola_value::times::LATEST;
use std::alloc::Global;
use std::marker::Model;

/// The deadlines of rates that count from one start. Several rates may have one at the same moment, and it is one.
#[derive(Drop)]
pub struct Clock {
    timers: Vec<Timer>,
    start: Option<u64>,
    passed: u64,
    least: u64,
}

impl Model for Clock {
    ghost use Rattle.lola_clock.specs.Clock.{ClockState};
    ghost use Rattle.lola_clock.specs.Timers.{AreTimers, timer_rates};

    ghost Value = { ClockState };

    ghost view = { λ c. record { rates = timer_rates c.timers.items; start = c.start; passed = c.passed } };

    ghost invariant = { λ c. AreTimers c.start c.passed c.timers.items c.least };
}

impl Clock {
    /// A clock of these rates, among which equal ones may be, that has not started.
    pub fn create(alloc: Global, rates: &[Rate]) -> Result<Clock, Memory>
        ensures { IfOk result (λ clock. clock ≡ record { rates = rates.now; start = None; passed = 0 }) }
    {
        let timers = new_timers(alloc, rates)?;
        Ok(Clock {
            timers,
            start: None,
            passed: 0,
            least: TOO_LATE,
        })
    }

    /// The moment from which the rates count, once it is set.
    pub fn start(&self) -> Option<u64>
        ensures { result ≡ self.now.start }
    {
        self.start
    }

    /// Starts the clock. The start itself is no deadline.
    pub fn start_at(&mut self, start: u64)
        requires once { self.old.start ≡ None }
        requires in_time { start ≤ latest }
        ensures { self.new ≡ record self.old { start = Some start; passed = start } }
    {
        self.least = set_timers(&mut self.timers, false, start, start);
        self.start = Some(start);
        self.passed = start;
    }

    /// The least deadline that is not passed. There is none exactly where the clock has not started, it has no rate,
    /// or no such deadline is at most `LATEST`.
    pub fn next_due(&self) -> Option<u64>
        ensures next { IsNextDue self.now result }
        ensures value { result ≡ first_to_come self.now }
        ensures clock { IsClock self.now }
    {
        if self.least <= LATEST {
            Some(self.least)
        } else {
            None
        }
    }

    /// Passes all deadlines up to and with this moment. How long it takes does not depend on how many they are.
    pub fn advance(&mut self, to: u64)
        requires started { IsSome self.old.start }
        requires in_time { to ≤ latest }
        ensures { self.new ≡ record self.old { passed = max self.old.passed to } }
    {
        let Some(start) = self.start else {
            return;
        };
        if to <= self.passed {
            return;
        }
        if to < self.least {
            self.passed = to;
            return;
        }
        self.least = set_timers(&mut self.timers, true, start, to);
        self.passed = to;
    }
}
