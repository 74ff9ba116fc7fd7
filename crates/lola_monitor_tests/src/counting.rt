//! How many tasks and steps there are, and turns of sources that wait.

use crate::cases::{Case, INTAKES, readable, run, worked};
use lola_port::Gate;
use std::alloc::Global;
use std::process::Abort;
use std::sync::Wait;
use std::sync::atomic::{AtomicBool, AtomicU32, Ordering};
use std::test::Fail;
use std::thread;
use std::thread::Threads;

/// Counts tasks, turns of sources, and steps over a bounded store and over any other; holds each task until the sources
/// have begun so many turns, for a million rounds of waiting, and notes whether they had.
#[derive(Drop)]
struct CountingGate {
    wanted: u32,
    held: AtomicBool,
    tasks: AtomicU32,
    begun: AtomicU32,
    bounded: AtomicU32,
    others: AtomicU32,
}

impl CountingGate {
    fn new(wanted: u32) -> CountingGate {
        CountingGate {
            wanted,
            held: AtomicBool::new(false),
            tasks: AtomicU32::new(0),
            begun: AtomicU32::new(0),
            bounded: AtomicU32::new(0),
            others: AtomicU32::new(0),
        }
    }
}

impl Gate for CountingGate {
    fn enter(&self, _task: u32) {
        self.tasks.fetch_add(1, Ordering::SeqCst);
        for _ in 0..1_000_000u32 {
            if self.begun.load(Ordering::SeqCst) >= self.wanted {
                self.held.store(true, Ordering::SeqCst);
                return;
            }
            thread::yield_now();
        }
    }

    fn source_turn(&self, _source: u32) {
        self.begun.fetch_add(1, Ordering::SeqCst);
    }

    fn step_done(&self, bounded: bool) {
        let count = if bounded { &self.bounded } else { &self.others };
        count.fetch_add(1, Ordering::SeqCst);
    }
}

/// How a run of one source ends, the tasks and the steps over a bounded store, and the other steps.
fn counted<R: Threads + Wait + Sync>(
    rt: &R,
    alloc: Global,
    specification: &str,
    rows: &str,
) -> Result<(u8, u32, u32, u32), Fail> {
    let gate = CountingGate::new(0);
    let case = Case {
        specification,
        sources: &[readable(rows)],
        ..worked()
    };
    let texts = ["lolamon", "run", "spec", "first"];
    let Some(left) = run(rt, alloc, &texts, INTAKES[0], &case, &gate)? else {
        return Err(Fail::new("no run"));
    };
    Ok((
        left.status,
        gate.tasks.load(Ordering::SeqCst),
        gate.bounded.load(Ordering::SeqCst),
        gate.others.load(Ordering::SeqCst),
    ))
}

/// Where a condition gives parameters their values, the instance with these values alone is asked, and else all are. Each step is one
/// over a bounded store, those of deadlines too.
#[test]
fn those_that_are_asked(rt: HostRuntime) -> Result<(), Fail> {
    let two = "time,a,s\n1,1,p\n2,1,q\n3,2,p\n4,1,q\n5,2,p\n";
    for (specification, rows, tasks, steps) in [
        (
            "input a: Int64\noutput n: UInt64 @1Hz := a.aggregate(over: 10s, using: count)",
            "time,a\n0,1\n2.5,#\n",
            2,
            4,
        ),
        (
            "input a: Int64\ninput s: String\noutput z(p: Int64, q: String): Int64\n  spawn with (a, s)\n  eval @(a && s) when s == q && p == a && a < 5 with z(p, q).last(or: 0) + 1",
            two,
            5,
            5,
        ),
        (
            "input a: Int64\ninput s: String\noutput z(p: Int64, q: String): Int64\n  spawn with (a, s)\n  eval @(a && s) when p == a with z(p, q).last(or: 0) + 1",
            two,
            1 + 2 + 3 + 3 + 3,
            5,
        ),
        (
            "input a: Int64\ninput b: Int64\noutput w(p: Int64): Int64\n  spawn with a\n  eval @a with p\noutput z(p: UInt64): Int64\n  spawn @1Hz with w(2).aggregate(over: 2s, using: count)\n  eval @1Hz when w(b.hold()).aggregate(over: 2s, using: count) == p with 1",
            "time,a,b\n0,1,#\n1,2,#\n2,1,#\n3,2,1\n4,2,#\n5,2,#\n6,2,#\n",
            (1 + 6 * 2) + (1 + 2 + 4),
            13,
        ),
        (
            "input a: Int64\noutput z(p: Int64): Int64\n  spawn with a\n  eval @a when a == p || a == 1 with 1",
            "time,a\n1,1\n2,3\n3,2\n4,1\n",
            1 + 2 + 3 + 3,
            4,
        ),
    ] {
        let (status, asked, bounded, others) = counted(&rt, rt.alloc(), specification, rows)?;
        assert!(rt; status == 0 && asked == tasks && bounded == steps && others == 0);
    }
    Ok(())
}

/// A source of so many rows of one time, each with the number 0.
fn zeros(alloc: Global, rows: u32) -> Result<String, Fail> {
    let mut text = String::from_str(alloc, "time,a\n")?;
    for _ in 0..rows {
        text.push_str("0,0\n")?;
    }
    Ok(text)
}

/// The first row has a fault, while eight sources of 400 rows wait at an intake that takes 1,024, the lock's or the queue: the run ends,
/// and the trace has that row alone.
#[test]
fn fault_while_sources_wait(rt: HostRuntime) -> Result<(), Fail> {
    let rows = zeros(rt.alloc(), 400)?;
    for intake in INTAKES {
        ends_at_its_first_row(&rt, rt.alloc(), intake, rows.as_str())?;
    }
    Ok(())
}

/// Runs eight sources of these rows, whose first row has a fault, while all wait at this intake.
fn ends_at_its_first_row<R: Threads + Wait + Sync + Abort>(
    rt: &R,
    alloc: Global,
    intake: &str,
    rows: &str,
) -> Result<(), Fail> {
    let gate = CountingGate::new(1030);
    let case = Case {
        specification: "input a: Int64\noutput b: Int64 := 1 / a",
        sources: &[readable(rows)],
        ..worked()
    };
    let texts = [
        "lolamon", "run", "spec", "first", "first", "first", "first", "first", "first", "first",
        "first",
    ];
    let Some(left) = run(rt, alloc, &texts, intake, &case, &gate)? else {
        return Err(Fail::new("no run"));
    };
    assert!(rt; left.status == 5 && gate.held.load(Ordering::SeqCst));
    assert!(rt; left.out.written() == b"= fault b 2 DivZero at 0.000000000\n".as_slice());
    let line = left.trace.written();
    assert!(rt; line.len() == 20 && line.ends_with(b",1,0.000000000,A,0\n".as_slice()));
    Ok(())
}
