//! An engine that keeps no more than is needed says what one says that keeps all values.

use crate::driving::{bounded_engine, reader, run_over, whole_engine};
use lola_front::compile;
use lola_value::text::Text;
use std::alloc::Global;
use std::test::Fail;
use std::thread::Threads;

/// Offsets, holds and windows of each aggregation, over numbers and texts.
const VALUES: &str =
    "input a: Int64\ninput s: String\noutput x: Int64 := x.offset(by: -1).defaults(to: 0) + a\noutput y: Int64 := a.offset(by: -3).defaults(to: 0)\noutput back: String := s.offset(by: -2).defaults(to: \"none\")\noutput same: Bool := s == s.last(or: \"\")\noutput odd: Bool := a % 2 == 1\noutput held: String @2Hz := s.hold(or: \"nothing\")\noutput n: UInt64 @2Hz := a.aggregate(over: 2s, using: count)\noutput sum: Int64 @1Hz := x.aggregate(over: 3s, using: sum)\noutput least: Int64 @2Hz := a.aggregate(over: 1500ms, using: min).defaults(to: 77)\noutput most: Int64 @1Hz := a.aggregate(over: 3s, using: max).defaults(to: 77)\noutput mean: Int64 @2Hz := a.aggregate(over_exactly: 2s, using: avg).defaults(to: 99)\noutput all: Bool @1Hz := odd.aggregate(over: 2s, using: forall)\noutput any: Bool @1Hz := odd.aggregate(over_exactly: 4s, using: exists).defaults(to: false)\noutput texts: UInt64 @1Hz := s.aggregate(over: 2s, using: count)\n";

/// Instances that are born, closed and born again, by numbers and by texts, with windows onto them.
const INSTANCES: &str =
    "input a: Int64\ninput s: String\noutput z(p: Int64): Int64\n  spawn with a\n  eval @a when a == p with z(p).last(or: 0) + 1\n  close when a == 0\noutput count(name: String): Int64\n  spawn with s\n  eval @s when s == name with count(name).offset(by: -2).defaults(to: 0) + 1\n  close @a when a == 3\noutput seen: UInt64 @1Hz := z(1).aggregate(over: 3s, using: count)\noutput best: Int64 @2Hz := count(\"p\").aggregate(over: 2s, using: max).defaults(to: 55)\noutput now: Int64 @2Hz := z(2).hold(or: 66)\noutput q: Int64 @1Hz := count(\"q\").hold(or: 44)\n";

/// Instances whose deadlines count from their births: of eval clauses, of close clauses, and beside a rate that counts from the start.
const LOCALS: &str =
    "input a: Int64\ninput s: String\noutput z(p: Int64): Int64\n  spawn with a\n  eval @Local(2Hz) with z(p).last(or: 0) + a.hold(or: 0)\n  close @a when a == 0\noutput beats(name: String): Int64\n  spawn with s\n  eval @s when s == name with beats(name).last(or: 0) + 1\n  close @Local(1500ms) when ticks(name).hold(or: 0) > 2 * beats(name).hold(or: 0)\noutput ticks(name: String): Int64\n  spawn with s\n  eval @Local(700ms) with ticks(name).last(or: 0) + 1\n  close @Local(2s) when ticks(name).hold(or: 0) > beats(name).hold(or: 0)\noutput sum: Int64 @Global(2Hz) := z(1).hold(or: 66) + z(2).hold(or: 77)\noutput seen: UInt64 @1Hz := ticks(\"p\").aggregate(over: 3s, using: count)\n";

/// Sums of instances that leave their kind at a deadline that counts from a birth.
const LOCAL_FAULTS: &str =
    "input a: Int64\ninput s: String\noutput w(p: Int64): Int8\n  spawn with a\n  eval @Local(3Hz) with w(p).last(or: 0) + 20\n  close @s when s == \"a longer text\"\noutput v(p: Int64): Int8\n  spawn with a\n  eval @Local(3Hz) with v(p).last(or: 0) + 7\n";

/// Sums that leave their kind after a while.
const FAULTS: &str =
    "input a: Int64\ninput s: String\noutput total: Int8 := total.offset(by: -1).defaults(to: 0) + small\noutput small: Int8 := if a > 0 then 3 else 0 - 1\noutput least: Int64 @1Hz := a.aggregate(over: 2s, using: min).defaults(to: 1)\noutput part: Int64 @1Hz := 12 / least\n";

/// Three sources of two rows a second, some of which are late, with a number or none and a text or none.
const ROWS: [&str; 3] = [
    "time,a,s\n1.5,1,p\n1.6,2,r\n2.5,3,p\n2.6,4,q\n3.1,#,q\n3.1,2,a longer text\n4.1,0,a longer text\n4.4,2,q\n5.2,-1,p\n5.1,1,p\n6.9,2,#\n6.2,3,q\n7.5,2,p\n7.2,5,#\n8.5,-1,p\n8.5,#,p\n9.9,3,q\n9.1,#,q\n10.4,-1,q\n10.9,4,q\n12.2,2,#\n12.4,4,a longer text\n15.8,#,q\n15.9,2,p\n16.4,#,a longer text\n16.0,0,q\n17.8,1,p\n17.8,5,q\n18.6,0,p\n18.8,#,q\n",
    "time,a,s\n1.1,3,#\n1.0,5,r\n2.1,2,p\n2.5,4,q\n3.6,3,#\n3.6,3,p\n4.5,4,#\n4.5,-1,q\n5.2,2,a longer text\n5.5,5,r\n6.5,#,p\n6.5,5,p\n7.4,-1,p\n7.0,5,p\n8.8,5,p\n8.0,-1,r\n9.6,3,a longer text\n9.4,3,#\n10.0,0,q\n10.8,5,q\n12.5,2,q\n12.4,0,p\n15.8,-1,p\n15.4,5,#\n16.5,1,q\n16.0,2,q\n17.2,-1,q\n17.2,3,q\n18.9,3,q\n18.4,3,q\n",
    "time,a,s\n1.8,5,a longer text\n1.5,-1,a longer text\n2.8,1,p\n2.4,4,q\n3.1,1,q\n3.2,4,a longer text\n4.9,-1,p\n4.6,5,q\n5.2,4,r\n5.9,1,q\n6.2,2,a longer text\n6.8,0,#\n7.4,5,p\n7.9,4,p\n8.0,3,p\n8.4,1,p\n9.4,3,p\n9.6,1,p\n10.5,1,r\n10.6,#,p\n12.8,2,p\n12.2,4,r\n15.9,0,r\n15.9,-1,q\n16.8,3,p\n16.1,3,q\n17.8,4,#\n17.8,1,p\n18.2,5,#\n18.1,0,a longer text\n",
];

/// What an engine leaves.
#[derive(Drop)]
struct Left {
    is_done: bool,
    lines: Text,
}

/// Runs these rows over the bounded store.
fn bounded<R: Threads + Sync>(
    rt: &R,
    alloc: Global,
    specification: &str,
    rows: &str,
) -> Result<Option<Left>, Fail> {
    let mut lines = Text::from_bytes(alloc, b"")?;
    let Ok(plan) = compile(alloc, specification.as_bytes()) else {
        return Ok(None);
    };
    let Some(mut reader) = reader(alloc, &plan, rows)? else {
        return Ok(None);
    };
    let mut engine = bounded_engine(alloc, plan)?;
    let is_done = run_over(rt, &mut engine, &mut reader, &mut lines).is_ok();
    Ok(Some(Left { is_done, lines }))
}

/// Runs these rows over whole lists.
fn whole<R: Threads + Sync>(
    rt: &R,
    alloc: Global,
    specification: &str,
    rows: &str,
) -> Result<Option<Left>, Fail> {
    let mut lines = Text::from_bytes(alloc, b"")?;
    let Ok(plan) = compile(alloc, specification.as_bytes()) else {
        return Ok(None);
    };
    let Some(mut reader) = reader(alloc, &plan, rows)? else {
        return Ok(None);
    };
    let mut engine = whole_engine(alloc, plan)?;
    let is_done = run_over(rt, &mut engine, &mut reader, &mut lines).is_ok();
    Ok(Some(Left { is_done, lines }))
}

/// Whether both end these rows alike, and say the same of them, and something.
fn agree<R: Threads + Sync>(
    rt: &R,
    alloc: Global,
    specification: &str,
    rows: &str,
) -> Result<bool, Fail> {
    let (Some(one), Some(other)) = (
        bounded(rt, alloc, specification, rows)?,
        whole(rt, alloc, specification, rows)?,
    ) else {
        return Ok(false);
    };
    let (lines, others) = (one.lines.as_bytes(), other.lines.as_bytes());
    Ok(one.is_done == other.is_done && lines == others && !lines.is_empty())
}

#[test]
fn both_stores_agree(rt: HostRuntime) -> Result<(), Fail> {
    let alloc = rt.alloc();
    for rows in ROWS {
        for specification in [VALUES, INSTANCES, LOCALS, FAULTS, LOCAL_FAULTS] {
            assert!(rt; agree(&rt, alloc, specification, rows)?);
        }
    }
    Ok(())
}
