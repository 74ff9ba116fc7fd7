//! The instances of a layer are given what they come to.

ghost use Rattle.std.specs.Prelude.{ℕ, ◌≡◌, ◌+◌, ◌<◌, ◌≤◌, ◌||◌, length, slice_get, take, true, false, Some};
ghost use Rattle.lola_value.specs.Shorts.{is_given};
ghost use Rattle.lola_value.specs.Naming.{Naming, IsHeldIn, read_outcome};
ghost use Rattle.lola_model.specs.Content.{Content, seen};
ghost use Rattle.lola_model.specs.Store.{Stands, instances_seen};
ghost use Rattle.lola_step_contents.specs.Changed.{told};
ghost use Rattle.lola_step.specs.Found.{has_fault, is_fault};
ghost use Rattle.lola_step.specs.Given.{AreHeldIn, AreKnown, AreFirstOf, CanGive, CanGiveAll, after_all, after_giving, told_outcomes};

use crate::tasks::Task;
use lola_model::store::StreamStore;
use lola_step_contents::calls::{poison, push};
use lola_value::brief::Brief;
use lola_value::value::Outcome;
use std::thread::Threads;

/// From how many instances on a stream is given what it comes to by threads.
const WORTH_SHARING: usize = 256;

/// Gives an instance an outcome that is no value: others see a fault as poison.
fn give_none<S: StreamStore>(store: &mut S, task: Task, outcome: Outcome)
    requires can { CanGive (S.seen store.old) task outcome }
    requires none { is_given outcome ≡ false }
    ensures seen { S.seen store.new ≡ after_giving (S.seen store.old) task outcome }
    ensures stands { (names : Naming) (c : Content) → Stands names (S.remembers store.old) (S.seen store.old) c
        → Stands names (S.remembers store.new) (S.seen store.new) (told c task.stream task.index (seen (read_outcome names outcome))) }
{
    match outcome {
        Outcome::Missing => {}
        Outcome::Value(_) => {}
        _ => poison(store, task.stream, task.index),
    }
}

/// Gives an instance its outcome: others see a fault as poison.
fn give<S: StreamStore>(store: &mut S, task: Task, outcome: Brief)
    requires { CanGive (S.seen store.old) task outcome }
    ensures seen { S.seen store.new ≡ after_giving (S.seen store.old) task outcome }
    ensures stands { (names : Naming) (c : Content) → IsHeldIn names outcome → Stands names (S.remembers store.old) (S.seen store.old) c
        → Stands names (S.remembers store.new) (S.seen store.new) (told c task.stream task.index (seen (read_outcome names outcome))) }
{
    match outcome.value() {
        Some(value) => push(store, task.stream, task.index, value),
        None => give_none(store, task, outcome.widen()),
    }
}

/// Whether there was a fault so far, or an outcome is one.
fn or_fault(faulty: bool, outcome: Brief) -> bool
    ensures { result ≡ (is_fault outcome || faulty) }
{
    match outcome.widen() {
        Outcome::Fault(_) => true,
        _ => faulty,
    }
}

/// Gives each task's instance its outcome, and answers whether one of them is a fault.
pub(crate) fn give_all<S: StreamStore>(store: &mut S, tasks: &[Task], results: &[Brief]) -> bool
    requires places { length tasks.now ≡ length results.now }
    requires can { CanGiveAll (S.seen store.old) tasks.now results.now }
    ensures seen { S.seen store.new ≡ after_all (S.seen store.old) tasks.now results.now }
    ensures stands { (names : Naming) (c : Content) → AreHeldIn names results.now → Stands names (S.remembers store.old) (S.seen store.old) c
        → Stands names (S.remembers store.new) (S.seen store.new) (told_outcomes names c tasks.now results.now) }
    ensures faulty { result ≡ has_fault results.now }
{
    let mut faulty = false;
    for (i, task) in tasks.iter().enumerate() {
        let outcome = results[i];
        give(store, *task, outcome);
        faulty = or_fault(faulty, outcome);
    }
    faulty
}

/// Whether the tasks are those of the first instances of a stream, in order.
fn are_of_stream(tasks: &[Task], stream: u32) -> bool
    ensures { result ≡ true → AreFirstOf stream tasks.now }
{
    for (i, task) in tasks.iter().enumerate() {
        if task.stream != stream || task.index as usize != i {
            return false;
        }
    }
    true
}

/// How many tasks come first that are those of all instances of a stream, if these are so many that threads are worth it; else 0.
fn whole_count<S: StreamStore>(store: &S, stream: u32, tasks: &[Task]) -> usize
    requires { stream < length (S.seen store.now).layout.streams }
    ensures within { result ≤ length tasks.now }
    ensures whole { 1 ≤ result → result ≡ length (instances_seen (S.seen store.now) stream) }
    ensures tasks { 1 ≤ result → AreFirstOf stream (take result tasks.now) }
{
    let count = store.instances(stream) as usize;
    if count < WORTH_SHARING || tasks.len() < count {
        return 0;
    }
    if are_of_stream(&tasks[..count], stream) {
        count
    } else {
        0
    }
}

/// Gives all instances of a stream their outcomes, by at most so many threads.
fn give_stream<R: Threads + Sync, S: StreamStore>(
    rt: &R,
    store: &mut S,
    stream: u32,
    _tasks: &[Task],
    results: &[Brief],
    workers: u32,
)
    requires stream { stream < length (S.seen store.old).layout.streams }
    requires workers { 1 ≤ workers }
    requires some { 1 ≤ length results.now }
    requires places { length _tasks.now ≡ length results.now }
    requires each { length results.now ≡ length (instances_seen (S.seen store.old) stream) }
    requires tasks { AreFirstOf stream _tasks.now }
    requires can { CanGiveAll (S.seen store.old) _tasks.now results.now }
    ensures seen { S.seen store.new ≡ after_all (S.seen store.old) _tasks.now results.now }
    ensures stands { (names : Naming) (c : Content) → AreHeldIn names results.now → Stands names (S.remembers store.old) (S.seen store.old) c
        → Stands names (S.remembers store.new) (S.seen store.new) (told_outcomes names c _tasks.now results.now) }
{
    store.give_each(rt, stream, results, workers);
}

/// Gives the first of these tasks their outcomes: those of all instances of a stream by at most so many threads, or else one. Answers how many.
fn give_next<R: Threads + Sync, S: StreamStore>(
    rt: &R,
    store: &mut S,
    tasks: &[Task],
    results: &[Brief],
    workers: u32,
) -> usize
    requires workers { 1 ≤ workers }
    requires some { 1 ≤ length tasks.now }
    requires known { AreKnown (S.seen store.old) tasks.now }
    requires places { length tasks.now ≡ length results.now }
    requires can { CanGiveAll (S.seen store.old) tasks.now results.now }
    ensures some { 1 ≤ result }
    ensures within { result ≤ length tasks.now }
    ensures seen { S.seen store.new ≡ after_all (S.seen store.old) (take result tasks.now) (take result results.now) }
    ensures stands { (names : Naming) (c : Content) → AreHeldIn names results.now → Stands names (S.remembers store.old) (S.seen store.old) c
        → Stands names (S.remembers store.new) (S.seen store.new) (told_outcomes names c (take result tasks.now) (take result results.now)) }
{
    let first = tasks[0];
    let count = whole_count(store, first.stream, tasks);
    if count == 0 {
        give(store, first, results[0]);
        return 1;
    }
    give_stream(
        rt,
        store,
        first.stream,
        &tasks[..count],
        &results[..count],
        workers,
    );
    count
}

/// Whether one of these outcomes is a fault.
fn any_fault(results: &[Brief]) -> bool
    ensures { result ≡ has_fault results.now }
{
    let mut faulty = false;
    for outcome in results {
        faulty = or_fault(faulty, *outcome);
    }
    faulty
}

/// Gives each task's instance its outcome, and answers whether one of them is a fault. The instances of a stream all of which have their
/// duty, and which are many, are shared out among at most so many threads.
pub(crate) fn give_shared<R: Threads + Sync, S: StreamStore>(
    rt: &R,
    store: &mut S,
    tasks: &[Task],
    results: &[Brief],
    workers: u32,
) -> bool
    requires known { AreKnown (S.seen store.old) tasks.now }
    requires places { length tasks.now ≡ length results.now }
    requires can { CanGiveAll (S.seen store.old) tasks.now results.now }
    ensures seen { S.seen store.new ≡ after_all (S.seen store.old) tasks.now results.now }
    ensures stands { (names : Naming) (c : Content) → AreHeldIn names results.now → Stands names (S.remembers store.old) (S.seen store.old) c
        → Stands names (S.remembers store.new) (S.seen store.new) (told_outcomes names c tasks.now results.now) }
    ensures faulty { result ≡ has_fault results.now }
{
    if workers < 2 || tasks.len() < WORTH_SHARING {
        return give_all(store, tasks, results);
    }
    let mut at = 0;
    while at < tasks.len() {
        at += give_next(rt, store, &tasks[at..], &results[at..], workers);
    }
    any_fault(results)
}
