//! Two workers that are at one layer together, and two sources that are read together.

use crate::cases::{Case, INTAKES, readable, run, worked};
use lola_port::Gate;
use lola_value::text::Memory;
use std::alloc::Global;
use std::sync::Wait;
use std::sync::atomic::{AtomicBool, Ordering};
use std::thread;
use std::thread::Threads;

/// Holds the first task, or the first turn of source 0, until the other one has come, for so many rounds of waiting, and notes whether it did.
#[derive(Drop)]
struct MeetingGate {
    turns: u32,
    of_sources: bool,
    second_came: AtomicBool,
    met: AtomicBool,
}

impl MeetingGate {
    fn comes(&self, number: u32) {
        if number > 0 {
            self.second_came.store(true, Ordering::SeqCst);
            return;
        }
        for _ in 0..self.turns {
            if self.second_came.load(Ordering::SeqCst) {
                self.met.store(true, Ordering::SeqCst);
                return;
            }
            thread::yield_now();
        }
    }
}

impl Gate for MeetingGate {
    fn enter(&self, task: u32) {
        if !self.of_sources {
            self.comes(task);
        }
    }

    fn source_turn(&self, source: u32) {
        if self.of_sources {
            self.comes(source);
        }
    }

    fn step_done(&self, _bounded: bool) {}
}

/// Two streams of one layer.
const PAIR: &str = "input a: Int64\noutput p: Int64 := a + 1\noutput q: Int64 := a + 2";

/// Whether two tasks, or two sources, of a run meet within so many rounds of waiting.
fn meet<R: Threads + Wait + Sync>(
    rt: &R,
    alloc: Global,
    texts: &[&str],
    intake: &str,
    of_sources: bool,
    turns: u32,
) -> Result<bool, Memory> {
    let gate = MeetingGate {
        turns,
        of_sources,
        second_came: AtomicBool::new(false),
        met: AtomicBool::new(false),
    };
    let row = readable("time,a\n0,1\n");
    let case = Case {
        specification: PAIR,
        sources: &[row, row],
        ..worked()
    };
    let Some(left) = run(rt, alloc, texts, intake, &case, &gate)? else {
        return Ok(false);
    };
    Ok(left.status == 0 && gate.met.load(Ordering::SeqCst))
}

#[test]
fn two_workers_meet(rt: HostRuntime) -> Result<(), Memory> {
    let by_two = ["lolamon", "run", "--workers", "2", "spec", "first"];
    let by_one = ["lolamon", "run", "--workers", "1", "spec", "first"];
    assert!(rt; meet(&rt, rt.alloc(), &by_two, INTAKES[0], false, 1_000_000)?);
    assert!(rt; !meet(&rt, rt.alloc(), &by_one, INTAKES[0], false, 1000)?);
    Ok(())
}

#[test]
fn two_sources_meet(rt: HostRuntime) -> Result<(), Memory> {
    let texts = ["lolamon", "run", "spec", "first", "second"];
    for intake in INTAKES {
        assert!(rt; meet(&rt, rt.alloc(), &texts, intake, true, 1_000_000)?);
    }
    Ok(())
}
